// Parts of a slice.

// A part: where it starts, and how long it is.
#[derive(Clone, Copy)]
pub struct Part {
    pub start: usize,
    pub len: usize,
}
