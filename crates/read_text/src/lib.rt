//! The lines of an unfolded text, read into a table, and its references; what is left in the buffers behind it.
#![tactic(auto)]

mod ends;
pub mod finishing;
mod loops;
pub mod tables;

use base::reasons::Refused;
pub use table::Used;

// "0, objects, cells, points; or a refusal, two place numbers, 0".
pub type Answer = Result<Used, Refused>;
