// Records at 6250 bits per inch (document 01, "The 6250 record"). This crate has no code: specs/ says what a written
// record is, what reading one answers, and what fits a reading, and proofs/ has the laws, among them the notice's terms.
// The crates writer6250, reading6250 and reader6250 compute with them.

#![tactic(auto)]
