// Lines that are a code alone, or a code and a name.
ghost use Rattle.std.specs.Prelude.{◌≡◌, not, List, [], ℕ, ◌+◌, get_or};
ghost use Rattle.meaning.specs.Model.{Model};
ghost use Rattle.meaning.specs.Field.{fields_of, more_than};
ghost use Rattle.meaning.specs.Reading.{Content, Rooms};
ghost use Rattle.meaning.specs.Lines.{opening_line, description_line, closing_line};
ghost use Rattle.read_state.specs.Meaning.{next_due_of};
ghost use Rattle.read_frame.specs.Codes.{codes, place_of};
ghost use Rattle.read_frame.specs.Moves.{NameField, end_in, alone_in, named_in, NextDueHolds};

use crate::codes;
use crate::codes::Code;
use base::parts::Part;
use base::reasons::{Reason, Refusal};
use base::{compare, fields};
use read_state::{Due, FrameDue};

// Whether the rest of a line has no field.
pub fn is_bare(rest: &[u8]) -> bool
    ensures { (s : ℕ) → result ≡ not (more_than 0 (fields_of s rest.now)) }
{
    fields::next_field(rest).is_none()
}

// The end of a line, whose next field would be this one.
pub(crate) fn end_line(rest: &[u8], field: usize, due: Due) -> Result<Due, Refusal>
    ensures { (s : ℕ) → result ≡ end_in field (fields_of s rest.now) due }
{
    if is_bare(rest) {
        Ok(due)
    } else {
        Err(Refusal {
            reason: Reason::FieldCount,
            field,
        })
    }
}

// The name behind a line's code.
pub(crate) fn name_field(rest: &[u8]) -> Result<Part, Refusal>
    ensures { NameField rest.now result }
{
    fields::next_field(rest).ok_or(Refusal {
        reason: Reason::FieldCount,
        field: 2,
    })
}

// This name behind a line's code, and nothing else.
pub(crate) fn named_line(rest: &[u8], name: &[u8], due: Due) -> Result<Due, Refusal>
    ensures { (s : ℕ) → result ≡ named_in name.now (fields_of s rest.now) due }
{
    let part = name_field(rest)?;
    let end = part.start + part.len;
    if !compare::same_bytes(&rest[part.start..end], name) {
        return Err(Refusal {
            reason: Reason::NameWrong,
            field: 2,
        });
    }
    end_line(&rest[end..], 3, due)
}

// A line that is this code alone.
pub(crate) fn alone_line(line: &[u8], code: Code, due: Due) -> Result<Due, Refusal>
    ensures { (s i : ℕ) → place_of code ≡ i + 1 → result ≡ alone_in (get_or codes i []) (fields_of s line.now) due }
{
    let head = codes::head_of(line);
    if head.code != Some(code) {
        return Err(Refusal {
            reason: Reason::OtherCode,
            field: 1,
        });
    }
    end_line(&line[head.behind..], 2, due)
}

// SCNT.
pub fn opening_line(line: &[u8]) -> Result<Due, Refusal>
    ensures meant { (m : Model) (rooms : Rooms) (text b : List ℕ) (s : ℕ) (c : Content)
        → next_due_of b result c ≡ opening_line m rooms text (fields_of s line.now) c }
    ensures held { (m : Model) (b : List ℕ) → NextDueHolds m b result }
{
    alone_line(line, Code::Scnt, Due::Frame(FrameDue::Description))
}

// A description line, or ////.
pub fn description_line(line: &[u8]) -> Result<Due, Refusal>
    ensures meant { (m : Model) (rooms : Rooms) (text b : List ℕ) (s : ℕ) (c : Content)
        → next_due_of b result c ≡ description_line m rooms text line.now (fields_of s line.now) c }
    ensures held { (m : Model) (b : List ℕ) → NextDueHolds m b result }
{
    if compare::begins_with(line, b"////") {
        alone_line(line, Code::Slashes, Due::Frame(FrameDue::Transfer))
    } else {
        Ok(Due::Frame(FrameDue::Description))
    }
}

// ENDE.
pub fn closing_line(line: &[u8]) -> Result<Due, Refusal>
    ensures meant { (m : Model) (rooms : Rooms) (text b : List ℕ) (s : ℕ) (c : Content)
        → next_due_of b result c ≡ closing_line m rooms text (fields_of s line.now) c }
    ensures held { (m : Model) (b : List ℕ) → NextDueHolds m b result }
{
    alone_line(line, Code::Ende, Due::Frame(FrameDue::Nothing))
}
