// Head order: numbers between the physical tracks of the head and the algebraic tracks of the code, by a wiring card
// (document 02, request 2.4) or by the standard one, which has note 11's order (document 000; document 01, "Head order").
// What is refused, and the calls; the crate arrangement moves. Of nine words moved, and of an inverse card, an answer tells
// only that they are delivered: they are stored in the lent numbers.

#![tactic(auto)]

pub mod card;
pub mod standard;
mod ways;
