// The steps that walks by hand share, over the MIR of a function. No function is proved by one now, since the borrow checker covers
// those that were (decision D21). It has no code and no definitions, so that no promise stands on it: proofs/ has the steps.
#![tactic(auto)]
