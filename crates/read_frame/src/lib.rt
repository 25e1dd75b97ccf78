//! The lines outside objects: a line's code, and what the lines of the transfer, its model, topics and tables make of
//! what is due.
#![tactic(auto)]

pub mod beginning;
pub mod codes;
pub mod lines;
pub mod names;
pub mod tables;
pub mod topics;
