// A step over one physical line: its fault, or its part of a logical line.
ghost use Rattle.std.specs.Prelude.{◌≡◌, not, ◌&&◌};
ghost use Rattle.meaning.specs.Unfold.{prefix, cont};
ghost use Rattle.unfold.specs.First.{FirstLineOf};
ghost use Rattle.unfold.specs.LinePart.{skip, Judged, Stepped};

use crate::lines;
use crate::lines::FirstLine;
use base::compare;
use base::parts::Part;
use base::reasons::Reason;

// A physical line's part of a logical line, where the next physical line begins, and whether that one continues the
// logical line.
#[derive(Clone, Copy)]
pub(crate) struct LinePart {
    pub part: Part,
    pub after: usize,
    pub continued: bool,
}

// Whether a line should begin with CONT and a space, and does not.
fn unled(line: &[u8], continues: bool) -> bool
    ensures { result ≡ (continues && not (prefix cont line.now)) }
{
    continues && !compare::starts_cont(line)
}

// The length of CONT and one space, where they are dropped.
fn skipped(continues: bool) -> usize
    ensures { result ≡ skip continues }
{
    if continues { 5 } else { 0 }
}

// The first physical line of the rest: 3, then 5, then 4, then its part.
fn judge(rest: &[u8], first: FirstLine, mark: u8, continues: bool) -> Result<LinePart, Reason>
    requires { FirstLineOf rest.now first }
    ensures { Judged mark continues rest.now result }
{
    let line = &rest[..first.len];
    let continued = compare::ends_in(line, mark);
    if continued & (first.after == rest.len()) {
        return Err(Reason::EndMissing);
    }
    if unled(line, continues) {
        return Err(Reason::ContinuationMissing);
    }
    if !first.permitted {
        return Err(Reason::ByteNotPermitted);
    }
    let start = skipped(continues);
    let len = lines::without_last(&line[start..], continued);
    Ok(LinePart {
        part: Part { start, len },
        after: first.after,
        continued,
    })
}

// A step over the first physical line of the rest, which continues a line or not. There is no part where none is left.
pub(crate) fn over_line(rest: &[u8], mark: u8, continues: bool) -> Result<Option<LinePart>, Reason>
    ensures { Stepped mark continues rest.now result }
{
    let Some(first) = lines::first_line(rest)? else {
        return if continues {
            Err(Reason::EndMissing)
        } else {
            Ok(None)
        };
    };
    Ok(Some(judge(rest, first, mark, continues)?))
}
