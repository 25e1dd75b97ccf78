//! The check of a compiled model: the rules of one record, the records in order, and the references.
#![tactic(auto)]

pub mod attributes;
pub mod check;
pub mod names;
pub mod records;
pub mod references;
pub mod rules;
