// Numbers: sign, digits and point to a scaled value, and its bounds.
ghost use Rattle.std.specs.Prelude.{◌≡◌, ◌+◌, ◌≤◌, ◌<◌, ◌^◌, pos, neg_ℤ, length, drop};
ghost use Rattle.meaning.specs.Bytes.{choose, begins};
ghost use Rattle.meaning.specs.Value.{digits_value, unsigned, is_number, number_digits, within, number_of};
ghost use Rattle.model_records.specs.Components.{component_of};
ghost use Rattle.value_read.specs.Meant.{Reads, value_meant};

use crate::digits;
use base::reasons::Reason;
use model_records::Component;

// A point and exactly so many digits behind it, at least one before it.
fn read_pointed(field: &[u8], decimals: usize) -> Option<u64>
    requires decimals_nonzero { 0 < decimals }
    requires decimals_bound { decimals < 256 }
    ensures { Reads (is_number decimals field.now) (digits_value (number_digits decimals field.now)) result }
{
    if field.len() <= decimals + 1 {
        return None;
    }
    let whole = field.len() - (decimals + 1);
    if 18 < whole + decimals || field[whole] != b'.' {
        return None;
    }
    let n = digits::read_digits(0, 0, &field[..whole])?;
    digits::read_digits(n, whole, &field[whole + 1..])
}

// A number without its sign: its value with all decimals.
fn read_unsigned(field: &[u8], decimals: u8) -> Option<u64>
    ensures { Reads (is_number decimals field.now) (digits_value (number_digits decimals field.now)) result }
{
    if decimals == 0 {
        digits::read_count(field)
    } else {
        read_pointed(field, decimals as usize)
    }
}

// The size of the sign, 0 or 1: "optional + or -".
fn sign_size(field: &[u8]) -> usize
    ensures { (result ≤ length field.now)
        × (drop result field.now ≡ unsigned field.now) }
{
    if field.starts_with(b"+") || field.starts_with(b"-") {
        1
    } else {
        0
    }
}

fn is_negative(field: &[u8]) -> bool
    ensures { result ≡ begins 0x2d field.now }
{
    field.starts_with(b"-")
}

// The value: the sign is that of the field, also where the whole part is zero.
fn with_sign(negative: bool, n: u64) -> i64
    requires { n < 10 ^ 18 }
    ensures { result ≡ choose negative (neg_ℤ (pos n)) (pos n) }
{
    if negative { -(n as i64) } else { n as i64 }
}

// Within the bounds of a component.
pub fn is_within(component: Component, v: i64) -> bool
    ensures { result ≡ within (component_of component) v }
{
    component.least <= v && v <= component.greatest
}

pub fn read_number(field: &[u8], component: Component) -> Result<(i64, i64), Reason>
    ensures { value_meant result ≡ number_of (component_of component) field.now }
{
    let size = sign_size(field);
    let n = read_unsigned(&field[size..], component.decimals).ok_or(Reason::WrongShape)?;
    let v = with_sign(is_negative(field), n);
    crate::judge(is_within(component, v), v)
}
