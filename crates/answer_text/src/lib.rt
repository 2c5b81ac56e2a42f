// What programs print of an answer: the line of a refusal.
#![tactic(auto)]

ghost use Rattle.answer.specs.Answer.{number_of};
ghost use Rattle.page.specs.Page.{Printed};
ghost use Rattle.answer_text.specs.Refusal.{refusal_text};

use answer::Refusal;
use page::Page;

// Puts a refusal's line: its number and its place. By `put` and not by a `Display`, here and in the programs: std says what `write!`
// makes only of a String, which takes memory.
#[tactic(auto, using(page::proofs::Printed::after_both))]
pub fn put_refusal(page: &mut Page, refusal: Refusal)
    ensures { Printed (refusal_text (number_of refusal.reason) refusal.place) page.old page.new }
{
    let reason = refusal.reason;
    page.put(b"refused ");
    page.decimal(reason.number() as u64);
    page.put(b" ");
    page.decimal(refusal.place as u64);
    page.put(b"\n");
}
