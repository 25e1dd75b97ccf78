//! The fields of an object's line, each put into its cells.
#![tactic(auto)]

pub mod filling;
pub mod storing;
pub mod taking;
