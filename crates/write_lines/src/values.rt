// Values put into a lent room, as their shortest bytes.
ghost use Rattle.std.specs.Prelude.{◌∷◌, ◌+◌, ◌≤◌, length};
ghost use Rattle.meaning.specs.Digits.{number_bytes, date_bytes};
ghost use Rattle.write_lines.specs.Puts.{Puts};

use super::Put;
use super::fields::{count_on, last_in, put_byte, put_bytes};

pub fn put_number(out: &mut [u8], put: Put, decimals: u8, v: i64) -> Put
    requires { decimals ≤ 9 }
    ensures { Puts (number_bytes decimals v) put out.old out.new result }
{
    let mut room = [0; 24];
    let size = value_write::put_number(v, decimals, &mut room);
    put_bytes(out, put, &room[..size])
}

// A space and a number in their place: there is room for the longest number.
fn put_number_field_there(out: &mut [u8], put: Put, decimals: u8, v: i64) -> Put
    requires decimals_bound { decimals ≤ 9 }
    requires count_in_bounds { put.count + 22 ≤ length out.old }
    ensures { Puts (0x20 ∷ number_bytes decimals v) put out.old out.new result }
{
    let from = put.count + 1;
    let size = value_write::put_number(v, decimals, &mut out[from..]);
    let last = last_in(b' ', &out[from..from + size]);
    out[from - 1] = b' ';
    Put {
        count: count_on(put.count, size + 1),
        last,
    }
}

// A number behind a space: in its place, but near the end of the room.
pub fn put_number_field(out: &mut [u8], put: Put, decimals: u8, v: i64) -> Put
    requires { decimals ≤ 9 }
    ensures { Puts (0x20 ∷ number_bytes decimals v) put out.old out.new result }
{
    if 22 <= out.len().saturating_sub(put.count) {
        put_number_field_there(out, put, decimals, v)
    } else {
        let gap = put_byte(out, put, b' ');
        put_number(out, gap, decimals, v)
    }
}

// As `put_number` but for the call: the digits of a number and of a date are known to `value_write` alone.
pub fn put_date(out: &mut [u8], put: Put, v: i64) -> Put
    ensures { Puts (date_bytes v) put out.old out.new result }
{
    let mut room = [0; 24];
    let size = value_write::put_date(v, &mut room);
    put_bytes(out, put, &room[..size])
}

// The number of a leaf.
pub fn put_leaf(out: &mut [u8], put: Put, v: i64) -> Put
    ensures { Puts (number_bytes 0 v) put out.old out.new result }
{
    put_number(out, put, 0, v)
}
