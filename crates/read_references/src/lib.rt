//! References, once all lines are read: "Reference: 1 and the number of the object", or 17.
#![tactic(auto)]

pub mod pairs;
pub mod rows;

use base::reasons::{Reason, Refused};

// The objects that references name, but for their cells: the text, the row list, and the index, which has so many of
// them.
#[derive(Clone, Copy)]
pub struct ObjectRows<'a> {
    pub text: &'a [u8],
    pub rows: &'a [u64],
    pub index: &'a [u64],
    pub count: usize,
    pub seed: u64,
}

// A reference that names no object of its table: its object and its field.
#[derive(Clone, Copy)]
pub struct Unresolved {
    pub object: usize,
    pub field: usize,
}

// "17" at its object and its field.
impl From<Unresolved> for Refused {
    ghost use Rattle.std.specs.Prelude.{◌≡◌};
    ghost use Rattle.base.specs.declared.reasons.Reason.TheVariants.{ObjectMissing};

    ghost from_gives = { λ unresolved r. r
        ≡ record { reason = ObjectMissing; first = unresolved.object; second = unresolved.field } };

    fn from(unresolved: Unresolved) -> Refused {
        Refused {
            reason: Reason::ObjectMissing,
            first: unresolved.object,
            second: unresolved.field,
        }
    }
}
