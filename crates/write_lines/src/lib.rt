//! What the writer puts into a lent room: bytes, fields, and lines cut to a width.
#![tactic(auto)]

pub mod cuts;
pub mod fields;
pub mod style;
pub mod values;

pub use style::LineStyle;

// How many bytes are put, and the last of them. The count goes on where the room is full; 4,294,967,295 stands for
// itself and all above.
#[derive(Clone, Copy)]
pub struct Put {
    pub count: usize,
    pub last: u8,
}
