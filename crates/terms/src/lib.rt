// The terms of the notice over what the other crates define. It has no code of its own: specs/ has the
// statements, and proofs/ their proofs.

#![tactic(auto)]
