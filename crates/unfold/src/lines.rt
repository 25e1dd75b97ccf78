// The first physical line of a file.
ghost use Rattle.std.specs.Prelude.{◌≡◌, ◌+◌, ◌≤◌, length, drop};
ghost use Rattle.meaning.specs.Unfold.{permitted};
ghost use Rattle.unfold.specs.First.{leading, end_len, EndOf, FeedAt, Shortened, FirstOf};

use base::reasons::Reason;
use base::{compare, kinds};

// The first physical line: its content's length, where the next line begins, and whether each byte of its content is
// permitted.
#[derive(Clone, Copy)]
pub(crate) struct FirstLine {
    pub len: usize,
    pub after: usize,
    pub permitted: bool,
}

// How many of the first bytes of the rest stand in whole blocks of sixteen permitted bytes: the test of such a block is
// a few vector operations.
fn permitted_blocks(rest: &[u8]) -> usize
    ensures upper_bound { result ≤ length rest.now }
    ensures rest_value { result + leading permitted (drop result rest.now) ≡ leading permitted rest.now }
{
    16 * rest
        .chunks_exact(16)
        .take_while(|block| kinds::every_permitted(block))
        .count()
}

// How many of the first bytes of the rest are permitted.
fn permitted_run(rest: &[u8]) -> usize
    ensures { result ≡ leading permitted rest.now }
{
    for i in permitted_blocks(rest)..rest.len() {
        if !kinds::is_permitted(rest[i]) {
            return i;
        }
    }
    rest.len()
}

// Where the first LF of the rest stands.
fn line_feed(rest: &[u8]) -> Option<usize>
    ensures { FeedAt rest.now result }
{
    rest.iter().position(|b| *b == 10)
}

// The length of the line end that the rest begins with: 1 for LF, 2 for CR LF.
fn end_len(rest: &[u8]) -> Option<usize>
    ensures { EndOf rest.now result }
{
    if compare::begins_with(rest, b"\n") {
        Some(1)
    } else if compare::begins_with(rest, b"\r\n") {
        Some(2)
    } else {
        None
    }
}

// The length of a line without its last byte, or of all of it.
pub(crate) fn without_last(line: &[u8], shorter: bool) -> usize
    ensures { Shortened shorter line.now result }
{
    if shorter {
        line.len().saturating_sub(1)
    } else {
        line.len()
    }
}

// The first line of the rest by its LF, where its permitted bytes are not followed by a line end.
fn line_to_lf(rest: &[u8]) -> Result<Option<FirstLine>, Reason>
    requires { end_len (drop (leading permitted rest.now) rest.now) ≡ 0 }
    ensures { FirstOf rest.now result }
{
    if rest.is_empty() {
        return Ok(None);
    }
    let n = line_feed(rest).ok_or(Reason::EndMissing)?;
    let raw = &rest[..n];
    let len = without_last(raw, compare::ends_in(raw, 13));
    Ok(Some(FirstLine {
        len,
        after: n + 1,
        permitted: false,
    }))
}

// The first line of the rest, if one is left; or that its end is missing.
pub(crate) fn first_line(rest: &[u8]) -> Result<Option<FirstLine>, Reason>
    ensures { FirstOf rest.now result }
{
    let len = permitted_run(rest);
    let Some(end) = end_len(&rest[len..]) else {
        return line_to_lf(rest);
    };
    Ok(Some(FirstLine {
        len,
        after: len + end,
        permitted: true,
    }))
}
