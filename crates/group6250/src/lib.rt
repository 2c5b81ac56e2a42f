// One group of the nine-track code of document 000, its eight tracks packed in one number of 64 bits: how it is
// written, and how its rows and columns are exchanged. The code itself, over every width, is the crate rectangular; how a
// group that was read is judged is the crate judge6250.

#![tactic(auto)]

pub mod group;
pub mod transpose;
