//! The lines of an object, written from its row: its fields, and the lines of its line attributes.
#![tactic(auto)]

mod fields;
pub mod objects;
