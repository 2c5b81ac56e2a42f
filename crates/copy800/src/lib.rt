// Copying a record at 800 bits per inch onto one at 6250 (document 02, request 2.6). This crate has no code: specs/ says what a copy
// is and what copying answers, and proofs/ has the laws. The crate copier800 computes with them.

#![tactic(auto)]
