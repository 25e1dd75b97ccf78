//! The lines of a file, written from a table: topics, tables and their objects in model order.
#![tactic(auto)]

pub mod file;
mod lines;
mod walk;
