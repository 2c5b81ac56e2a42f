// The listing program (document 01, "Bench readings"): reads data from standard input and prints the
// words of the 6250 record that is written from them, a line for each group; or the refusal.
#![tactic(auto)]

ghost use Rattle.std.specs.Prelude.{◌*◌, ◌≤◌, length, IfSome};
ghost use Rattle.rectangular.specs.Constants.{numbers_per_group};
ghost use Rattle.page.specs.Page.{Printed};
ghost use Rattle.streams.specs.Ended.{Prints};
ghost use Rattle.listing.specs.Listing.{word_text, group_text, record_text, listing_text, Listed, ListedOf};

use answer_text::put_refusal;
use page::Page;
use rectangular::Code6250;
use std::io::Read;
use streams::Text;

// Puts word j of a line, a space in front of all but the first.
#[tactic(auto, using(page::proofs::Printed::after_both))]
fn put_word(page: &mut Page, j: usize, word: u16)
    ensures { Printed (word_text j word) page.old page.new }
{
    if j > 0 {
        page.put(b" ");
    }
    page.decimal(word as u64);
}

// Puts the words of the group in front, and a newline.
fn put_group(page: &mut Page, words: &[u16])
    requires { numbers_per_group ≤ length words.now }
    ensures { Printed (group_text words.now 0) page.old page.new }
{
    for (j, word) in words[..Code6250::NUMBERS].iter().enumerate() {
        put_word(page, j, *word);
    }
    page.put(b"\n");
}

// Puts the first groups.
fn put_groups(page: &mut Page, words: &[u16], groups: usize)
    requires { numbers_per_group * groups ≤ length words.now }
    ensures { Printed (record_text words.now groups) page.old page.new }
{
    for g in 0..groups {
        put_group(page, &words[Code6250::NUMBERS * g..]);
    }
}

// The listing of data.
fn listing(page: &mut Page, bytes: &[u8]) -> Text
    ensures { Prints (listing_text bytes.now) page.new result }
{
    let mut words = [0u16; Code6250::NUMBERS * Code6250::MOST_GROUPS];
    page.clear();
    match writer6250::write(bytes, &mut words) {
        Ok(groups) => put_groups(page, &words, groups),
        Err(refusal) => put_refusal(page, refusal),
    }
    Text::Output
}

// The listing of the data that a reader has.
fn listed<R: Read>(input: &mut R, page: &mut Page) -> Text
    ensures listed { Listed page.new result }
    ensures input { IfSome (R.remaining input.old) (λ bytes. ListedOf bytes page.new result) }
{
    // One byte more than a record holds, so that longer data are seen and refused.
    let mut bytes = [0u8; Code6250::MOST_DATA + 1];
    match streams::read(input, &mut bytes) {
        Ok(count) => listing(page, &bytes[..count]),
        Err(failure) => streams::unread(page, failure),
    }
}

fn main(rt: HostRuntime) {
    let mut page = Page::new();
    let text = listed(&mut rt.stdin(), &mut page);
    // what could not be written was told
    let _ = streams::finish(&rt, text, &mut page);
}
