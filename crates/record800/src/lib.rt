// Records at 800 bits per inch (document 01, "The 800 record"). This crate has no code: specs/ says what a written record
// is, what reading one answers, and what fits a reading, and proofs/ has the laws, among them the notice's terms. The
// crates writer800, scan800 and reader800 compute with them.

#![tactic(auto)]
