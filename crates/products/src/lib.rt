// Products with powers of T and with the erasure matrices, and the check syndrome (document 000, equations (14), (20)
// and (21)): what a group of nine tracks is judged by.

#![tactic(auto)]

mod product;
mod sums;

pub use product::{backward_power, erasure_product};
pub use sums::{check_syndrome, forward_power};
