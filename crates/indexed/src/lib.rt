// Lists by index, tests that the checker computes, and rules of tables. It has no code of its own: specs/ has
// the definitions and proofs/ the laws.
#![tactic(auto)]
