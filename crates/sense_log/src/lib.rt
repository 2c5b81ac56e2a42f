// The sense log (document 02, request 2.1): what was corrected in a record at 6250, as operators file it. specs/ says what the log of a
// reading is and what a log reads back to, and proofs/ has the laws, among them that one set of changes has one log. The crates log_writer
// and log_reader compute with them; here is only what they share.

#![tactic(auto)]

mod pair;

ghost use Rattle.std.specs.Prelude.{◌≡◌};
ghost use Rattle.sense_log.specs.Log.{bit_map_length};

pub use pair::pair_at;

// The bytes of the bit map of so many groups.
pub fn bit_map_length(groups: usize) -> usize
    ensures { result ≡ bit_map_length groups }
{
    groups.div_ceil(8)
}
