// The order of the head's tracks and of the code's (document 000, note 11; document 01, "Head order"), and the wiring cards
// between them (document 02, request 2.4). This crate has no function: specs/ says what a card is, what moving nine words or
// a pointer map by it gives and answers, and proofs/ has the laws. The crate arrangement computes with them, and head_order
// has the calls.

#![tactic(auto)]

// The order toward which numbers are moved: that of the physical tracks, on the head, or that of the algebraic ones, in the
// code. Definitions and code go by it alike, so it stands below both.
#[derive(Clone, Copy, PartialEq, Eq)]
pub enum Toward {
    Physical,
    Algebraic,
}
