// Topics: the topic that a line names, and the lines that begin a topic or end the model.
ghost use Rattle.std.specs.Prelude.{◌≡◌, List, ℕ, ◌≤◌, length};
ghost use Rattle.meaning.specs.Field.{fields_of};
ghost use Rattle.meaning.specs.Reading.{Content, Rooms, same_name, find_topic};
ghost use Rattle.meaning.specs.Lines.{topic_line};
ghost use Rattle.read_state.specs.Meaning.{marked_of};
ghost use Rattle.model_records.specs.Records.{payload_at, next_at, model_at};
ghost use Rattle.model_records.specs.Places.{Placed};
ghost use Rattle.read_frame.specs.Moves.{NextDueHolds};
ghost use Rattle.read_frame.specs.Finds.{topic_found_of, topic_in};

use crate::codes::Code;
use crate::{codes, lines, names};
use base::reasons::{Reason, Refusal};
use model_records::places::Records;
use read_state::{Due, FrameDue};

// Whether the topic whose record is at a byte has this name.
fn is_topic(model: &[u8], at: usize, name: &[u8]) -> bool
    requires { next_at model.now at ≤ length model.now }
    ensures { result ≡ same_name (payload_at model.now at) name.now }
{
    let next = model_records::next_at(model, at);
    names::same_name(&model[at + 4..next], name)
}

// The topic of this name, `from` or a later one.
fn find_topic(model: &Records<'_>, name: &[u8], from: usize) -> Option<usize>
    requires { Placed model.now }
    ensures { topic_found_of result ≡ find_topic from 0 name.now (model_at model.now.bytes.now).topics }
{
    for p in from..model.shape.topics {
        if is_topic(model.bytes, model.topic_at(p), name) {
            return Some(p);
        }
    }
    None
}

// The fields behind TOPI.
fn begin_topic(model: &Records<'_>, rest: &[u8], from: usize) -> Result<Due, Refusal>
    requires { Placed model.now }
    ensures meant { (s : ℕ) (c : Content) → let m = model_at model.now.bytes.now in
        marked_of model.now.bytes.now (length m.topics) result c ≡ topic_in m from (fields_of s rest.now) c }
    ensures held { NextDueHolds (model_at model.now.bytes.now) model.now.bytes.now result }
{
    let part = lines::name_field(rest)?;
    let end = part.start + part.len;
    let found = find_topic(model, &rest[part.start..end], from);
    let p = found.ok_or(Refusal {
        reason: Reason::NameWrong,
        field: 2,
    })?;
    lines::end_line(&rest[end..], 3, Due::Frame(FrameDue::Table(p, 0)))
}

// TOPI of topic `from` or a later one, or EMOD.
pub fn topic_line(model: &Records<'_>, line: &[u8], from: usize) -> Result<Due, Refusal>
    requires { Placed model.now }
    ensures meant { (rooms : Rooms) (text : List ℕ) (s : ℕ) (c : Content) →
        let m = model_at model.now.bytes.now in
        marked_of model.now.bytes.now (length m.topics) result c
        ≡ topic_line m rooms text from (fields_of s line.now) c }
    ensures held { NextDueHolds (model_at model.now.bytes.now) model.now.bytes.now result }
{
    let head = codes::head_of(line);
    let rest = &line[head.behind..];
    match head.code {
        Some(Code::Emod) => lines::end_line(rest, 2, Due::Frame(FrameDue::Closing)),
        Some(Code::Topi) => begin_topic(model, rest, from),
        _ => Err(Refusal {
            reason: Reason::OtherCode,
            field: 1,
        }),
    }
}
