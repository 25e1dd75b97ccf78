// Fields: "longest runs without space or tab".
ghost use Rattle.std.specs.Prelude.{◌≡◌, true, ◌∷◌, ℕ, ◌+◌, ◌≤◌, ◌<◌, length, take, drop};
ghost use Rattle.meaning.specs.Field.{goes_on, fields_of};
ghost use Rattle.base.specs.Fields.{NextField};

use crate::kinds;
use crate::parts::Part;

// The count of separators in front.
fn skip_separators(rest: &[u8]) -> usize
    ensures within { result ≤ length rest.now }
    ensures same { (s : ℕ) → fields_of s rest.now ≡ fields_of (s + result) (drop result rest.now) }
    ensures stops { result < length rest.now → goes_on (drop result rest.now) ≡ true }
{
    rest.iter()
        .position(|b| !kinds::is_separator(*b))
        .unwrap_or(rest.len())
}

// The size of the field that the rest begins with.
fn field_size(rest: &[u8]) -> usize
    requires { goes_on rest.now ≡ true }
    ensures within { (0 < result) × (result ≤ length rest.now) }
    ensures field { (s : ℕ) → fields_of s rest.now ≡ record { start = s; bytes = take result rest.now }
        ∷ fields_of (s + result) (drop result rest.now) }
{
    for i in 1..rest.len() {
        if kinds::is_separator(rest[i]) {
            return i;
        }
    }
    rest.len()
}

// The next field of the rest of a line, by its place in the rest.
pub fn next_field(rest: &[u8]) -> Option<Part>
    ensures { NextField rest.now result }
{
    let start = skip_separators(rest);
    if start == rest.len() {
        return None;
    }
    let len = field_size(&rest[start..]);
    Some(Part { start, len })
}
