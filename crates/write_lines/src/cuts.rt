// "A line is cut only where needed": the end of a line that stands in a lent room.
ghost use Rattle.std.specs.Prelude.{◌≡◌, List, ◌++◌, ℕ, ◌+◌, ◌*◌, ◌-◌, ◌≤◌, ◌<◌, length, take, drop};
ghost use Rattle.std.proofs.lemmas.List.Edits.{sets};
ghost use Rattle.meaning.specs.Bytes.{choose};
ghost use Rattle.write_lines.specs.Cuts.{cut_bytes, cut_rest, with_cuts, CutsCounted};
ghost use Rattle.write_lines.specs.Puts.{Puts, Ends};

use super::fields::{count_on, put_byte};
use super::{LineStyle, Put};

// How often a line is cut, and behind how many of its bytes last.
#[derive(Clone, Copy)]
struct Cuts {
    count: usize,
    last: usize,
}

// What the last part of a line has room for: nothing where the line ends in the mark.
fn last_room(ended: bool, room: usize) -> usize
    ensures { result ≡ choose ended 0 room }
{
    if ended { 0 } else { room }
}

// The cuts of a line of so many bytes, by whether it ends in the mark: the first lies behind width - 1 bytes, each
// other width - 6 bytes behind the one before it.
fn count_cuts(size: usize, ended: bool, style: LineStyle) -> Cuts
    requires { size < 4294967295 }
    ensures { CutsCounted style.width size ended result.count result.last }
{
    let room = last_room(ended, style.width - 5);
    let mut count = 1;
    let mut last = style.width - 1;
    // By hand: the count by a division needs the last cut as well, and is no plainer.
    while last + room < size {
        count += 1;
        last += style.width - 6;
    }
    Cuts { count, last }
}

// Moves the bytes between two places to the right, with a cut before them.
fn put_cut(out: &mut [u8], from: usize, to: usize, gap: usize, mark: u8)
    requires { (from ≤ to) × (to + (gap + 7) ≤ length out.old) }
    ensures { out.new
        ≡ sets out.old (from + gap) (cut_bytes mark ++ take (to - from) (drop from out.old)) }
{
    let at = from + gap;
    out.copy_within(from..to, at + 7);
    out[at] = mark;
    out[at + 1..at + 7].copy_from_slice(b"\nCONT ");
}

// Cuts the line between two places, from its last part to its first.
fn put_cuts(out: &mut [u8], start: usize, end: usize, style: LineStyle, cuts: Cuts)
    requires start_le_end { (start ≤ end) × (end + 7 * cuts.count ≤ length out.old) }
    requires last_value { let w = style.width in
        (cuts.last ≡ 5 + cuts.count * (w - 6)) × (start + cuts.last < end + w) }
    ensures { out.new ≡ take start out.old
        ++ with_cuts style.mark (style.width - 6) cuts.count cuts.last (take (end - start) (drop start out.old))
        (drop (end + 7 * cuts.count) out.old) }
{
    let mut last = cuts.last;
    let mut to = end;
    for left in (0..cuts.count).rev() {
        let from = (start + last).min(to);
        put_cut(out, from, to, 7 * left, style.mark);
        to = from;
        last -= style.width - 6;
    }
}

// Ends a line that does not go out whole: where there is room for it, it is cut in its place.
fn cut_line(out: &mut [u8], start: usize, put: Put, style: LineStyle) -> Put
    requires { (start ≤ put.count) × (put.count < 4294967295) }
    ensures { (line : List ℕ) (before : Put) (e : List ℕ) → before.count ≡ start → 1 ≤ length line
        → Puts line before e out.old put
        → Puts (cut_rest style.mark style.width (style.width - 1) line) before e out.new result }
{
    let n = put.count;
    let cuts = count_cuts(n - start, put.last == style.mark, style);
    let more = 7 * cuts.count;
    let all = Put {
        count: count_on(n, more + 1),
        last: b'\n',
    };
    if n + more < out.len() {
        out[n + more] = b'\n';
        put_cuts(out, start, n, style, cuts);
    }
    all
}

// Ends the line that was put behind the first `start` bytes: whole, or cut to the width.
pub fn end_line(out: &mut [u8], start: usize, put: Put, style: LineStyle) -> Put
    ensures { Ends style.mark style.width start put out.old out.new result }
{
    let n = put.count;
    if 4294967295 <= n {
        return Put {
            count: 4294967295,
            last: b'\n',
        };
    }
    if n < start {
        return put;
    }
    if n - start <= last_room(put.last == style.mark, style.width) {
        put_byte(out, put, b'\n')
    } else {
        cut_line(out, start, put, style)
    }
}
