//! The judge of a lent table (01, refusal 19): a walk over its marks, rows, pairs and points that reads no lines.
#![tactic(auto)]

mod cells;
pub mod judging;
mod marks;
mod pairs;
mod points;
mod rows;
