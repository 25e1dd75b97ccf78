//! The listing program's work on bytes and cells: where the model ends, and the bytes of a line of cells.
#![tactic(auto)]

pub mod parts;
pub mod rows;
