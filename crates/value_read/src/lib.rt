//! Values: from a field's bytes to its cells.
#![tactic(auto)]

ghost use Rattle.std.specs.Prelude.{◌≡◌};
ghost use Rattle.value_read.specs.Meant.{judged, value_meant};

pub mod dates;
pub mod digits;
pub mod numbers;
pub mod stretches;

use base::reasons::Reason;

// A value of the right shape, where it is inside its domain.
pub(crate) fn judge(inside: bool, v: i64) -> Result<(i64, i64), Reason>
    ensures { value_meant result ≡ judged inside v }
{
    if inside {
        Ok((1, v))
    } else {
        Err(Reason::OutsideDomain)
    }
}
