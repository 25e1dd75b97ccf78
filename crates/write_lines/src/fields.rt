// Bytes, codes and fields put into a lent room.
ghost use Rattle.std.specs.Prelude.{◌≡◌, List, [], ◌∷◌, ℕ, ◌+◌, min};
ghost use Rattle.write_lines.specs.Puts.{last_in, Puts};

use super::Put;

// A count and so many more; 4,294,967,295 for itself and all above.
pub(crate) fn count_on(count: usize, more: usize) -> usize
    ensures { result ≡ min 4294967295 (count + more) }
{
    count.saturating_add(more).min(4294967295)
}

// The last byte of a part, or the one before it.
pub(crate) fn last_in(before: u8, part: &[u8]) -> u8
    ensures { result ≡ last_in before part.now }
{
    part.last().copied().unwrap_or(before)
}

// Nothing more is put.
pub fn put_nothing(put: Put) -> Put
    ensures { (room : List ℕ) → Puts [] put room room result }
{
    Put {
        count: count_on(put.count, 0),
        last: put.last,
    }
}

pub fn put_byte(out: &mut [u8], put: Put, b: u8) -> Put
    ensures { Puts (b ∷ []) put out.old out.new result }
{
    let n = put.count;
    let all = Put {
        count: count_on(n, 1),
        last: b,
    };
    if n < out.len() {
        out[n] = b;
    }
    all
}

pub fn put_bytes(out: &mut [u8], put: Put, part: &[u8]) -> Put
    ensures { Puts part.now put out.old out.new result }
{
    let n = put.count;
    let all = Put {
        count: count_on(n, part.len()),
        last: last_in(put.last, part),
    };
    if n <= out.len() && part.len() <= out.len() - n {
        out[n..n + part.len()].copy_from_slice(part);
    }
    all
}

// "One space between fields": a further field.
pub fn put_field(out: &mut [u8], put: Put, field: &[u8]) -> Put
    ensures { Puts (0x20 ∷ field.now) put out.old out.new result }
{
    let gap = put_byte(out, put, b' ');
    put_bytes(out, gap, field)
}
