//! One line of reading: the handler of what is due, and the marks of a topic or a table that begins.
#![tactic(auto)]

pub mod line;
mod marks;
