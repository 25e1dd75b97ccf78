// Digits: their value, in one pass.
ghost use Rattle.std.specs.Prelude.{◌+◌, ◌≤◌, ◌<◌, ◌^◌, length};
ghost use Rattle.meaning.specs.Bytes.{digit, every};
ghost use Rattle.meaning.specs.Value.{digits_after, digits_value, is_digits};
ghost use Rattle.value_read.specs.Meant.{Reads};

// The number that digits say which stand behind those of n, of which there are `before` at most; none where other
// bytes stand among them.
pub(crate) fn read_digits(n: u64, before: usize, field: &[u8]) -> Option<u64>
    requires n_bound { n < 10 ^ before }
    requires field_bound { before + length field.now ≤ 18 }
    ensures { Reads (every digit field.now) (digits_after n field.now) result }
{
    let mut v = n;
    for b in field {
        if !base::kinds::is_digit(*b) {
            return None;
        }
        v = v * 10 + u64::from(*b - b'0');
    }
    Some(v)
}

// "1 to 18 digits"
pub(crate) fn read_count(field: &[u8]) -> Option<u64>
    ensures { Reads (is_digits 1 18 field.now) (digits_value field.now) result }
{
    match field.len() {
        1..=18 => read_digits(0, 0, field),
        _ => None,
    }
}
