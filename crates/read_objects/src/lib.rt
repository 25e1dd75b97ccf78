//! An OBJE line: its identification, its row from the fields behind it, and the row that joins the table.
#![tactic(auto)]

pub mod naming;
pub mod reading;
pub mod rows;
pub mod storing;

// The table whose objects are read: its number, and the byte of its first attribute record.
#[derive(Clone, Copy)]
pub struct OpenTable {
    pub table: usize,
    pub at: usize,
}
