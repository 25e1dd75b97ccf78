//! Unfolding (01, "Unfolding"): the physical lines of a file, continued by a mark, become logical lines in a lent room.
#![tactic(auto)]

mod lines;
mod steps;

ghost use Rattle.std.specs.Prelude.{◌≡◌, [], ◌∷◌, ◌+◌, ◌<◌, ◌^◌, length};
ghost use Rattle.meaning.specs.Unfold.{unfold_file};
ghost use Rattle.meaning.specs.Answer.{text_unfolded};
ghost use Rattle.unfold.specs.Answer.{answer_of, Within};
ghost use Rattle.unfold.specs.Turn.{Put, TurnReady, Turned, Over};

use base::reasons::{Reason, Refused};
use base::rooms;

// A fault and its logical line; too little room for the text has none, 0.
#[derive(Clone, Copy)]
pub struct Fault {
    pub reason: Reason,
    pub line: usize,
}

impl From<Fault> for Refused {
    ghost use Rattle.std.specs.Prelude.{◌≡◌};

    ghost from_gives = { λ fault r. r ≡ record { reason = fault.reason; first = fault.line; second = 0 } };

    fn from(fault: Fault) -> Refused {
        Refused {
            reason: fault.reason,
            first: fault.line,
            second: 0,
        }
    }
}

// Before the physical line at `at`: its logical line, the length of the text so far (which goes on growing where the
// room is full), and whether the line continues one.
#[derive(Clone, Copy)]
struct LineCursor {
    at: usize,
    line: usize,
    used: usize,
    continues: bool,
}

// Puts part behind the first used bytes of text, if there is room, and says where it ends or would end.
fn put_part(part: &[u8], text: &mut [u8], used: usize) -> usize
    requires { used + length part.now < 2 ^ 64 }
    ensures { Put used part.now text.old text.new result }
{
    let end = used + part.len();
    if end <= text.len() {
        rooms::append(part, text, used)
    } else {
        end
    }
}

// One turn: the physical line at the cursor. There is no next cursor where no line is left.
fn one_turn(
    file: &[u8],
    mark: u8,
    text: &mut [u8],
    cursor: LineCursor,
) -> Result<Option<LineCursor>, Fault>
    requires { TurnReady mark file.now text.old cursor }
    ensures { Turned mark file.now text.old text.new cursor result }
{
    let at = cursor.at;
    let line = cursor.line;
    let step = steps::over_line(&file[at..], mark, cursor.continues);
    let Some(found) = step.map_err(|reason| Fault { reason, line })? else {
        return Ok(None);
    };
    let from = at + found.part.start;
    let end = put_part(&file[from..from + found.part.len], text, cursor.used);
    let next = LineCursor {
        at: at + found.after,
        line,
        used: end,
        continues: true,
    };
    if found.continued {
        return Ok(Some(next));
    }
    Ok(Some(LineCursor {
        line: line + 1,
        used: put_part(b"\n", text, end),
        continues: false,
        ..next
    }))
}

// The lines of file, in text as far as they fit: the length of their text.
fn over_lines(file: &[u8], mark: u8, text: &mut [u8]) -> Result<usize, Fault>
    ensures { Over mark file.now (length text.old) text.new result }
{
    let mut cursor = LineCursor {
        at: 0,
        line: 1,
        used: 0,
        continues: false,
    };
    while let Some(next) = one_turn(file, mark, text, cursor)? {
        cursor = next;
    }
    if text.len() < cursor.used {
        return Err(Fault {
            reason: Reason::RoomTooSmall,
            line: 0,
        });
    }
    Ok(cursor.used)
}

// Unfolds file with this mark into text: each logical line and one LF, then zeros. A refusal leaves nothing but zeros.
pub fn unfold_with(file: &[u8], mark: u8, text: &mut [u8]) -> Result<usize, Fault>
    ensures answer { answer_of result
        ≡ (text_unfolded (length text.old) (unfold_file mark file.now)).answer }
    ensures room { text.new
        ≡ (text_unfolded (length text.old) (unfold_file mark file.now)).text }
    ensures within { Within (length file.now) result }
{
    let over = over_lines(file, mark, text);
    let used = over.unwrap_or(0);
    text[used..].fill(0);
    over
}
