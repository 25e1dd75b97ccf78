// Tables: the table that a line names, and the lines that begin a table, end one or end a topic.
ghost use Rattle.std.specs.Prelude.{◌≡◌, List, ℕ, ◌+◌, ◌≤◌, ◌<◌, length, drop};
ghost use Rattle.meaning.specs.Field.{fields_of};
ghost use Rattle.meaning.specs.Reading.{Content, Rooms, same_name, mandatory_between};
ghost use Rattle.meaning.specs.Lines.{table_line, behind_objects};
ghost use Rattle.read_state.specs.Meaning.{next_due_of, marked_of};
ghost use Rattle.model_records.specs.Records.{payload_at, next_at, model_at};
ghost use Rattle.model_records.specs.Places.{Placed};
ghost use Rattle.read_frame.specs.Moves.{NextDueHolds};
ghost use Rattle.read_frame.specs.Finds.{FoundTable, table_in, topic_end_in};

use crate::codes::Code;
use crate::{codes, lines, names};
use base::reasons::{Reason, Refusal};
use model_records::places::Records;
use read_state::{Due, FrameDue};

// Whether the table whose record is at a byte has this name.
fn is_table(model: &[u8], at: usize, name: &[u8]) -> bool
    requires { (at + 5 ≤ next_at model.now at) × (next_at model.now at ≤ length model.now) }
    ensures { result ≡ same_name (drop 1 (payload_at model.now at)) name.now }
{
    let next = model_records::next_at(model, at);
    names::same_name(&model[at + 5..next], name)
}

// The table of this topic and this name, `from` or a later one, unless a mandatory one is passed before it.
fn find_table(model: &Records<'_>, name: &[u8], topic: usize, from: usize) -> Result<usize, Reason>
    requires { Placed model.now }
    ensures { FoundTable (model_at model.now.bytes.now) topic from name.now result }
{
    let mut mandatory = false;
    for t in from..model.shape.tables {
        if model.topic_of(t) == topic {
            if is_table(model.bytes, model.table_at(t), name) {
                return if mandatory {
                    Err(Reason::TableSkipped)
                } else {
                    Ok(t)
                };
            }
            mandatory |= !model.is_optional(t);
        }
    }
    Err(Reason::NameWrong)
}

// Whether a mandatory table of this topic is left, from table `from` on.
fn has_mandatory(model: &Records<'_>, topic: usize, from: usize) -> bool
    requires { Placed model.now }
    ensures { let tables = (model_at model.now.bytes.now).tables in
        result ≡ mandatory_between topic from (length tables) 0 tables }
{
    let mut mandatory = false;
    for t in from..model.shape.tables {
        if model.topic_of(t) == topic {
            mandatory |= !model.is_optional(t);
        }
    }
    mandatory
}

// The fields behind TABL.
fn begin_table(model: &Records<'_>, rest: &[u8], topic: usize, from: usize) -> Result<Due, Refusal>
    requires { Placed model.now }
    ensures meant { (s : ℕ) (c : Content) → let m = model_at model.now.bytes.now in
        marked_of model.now.bytes.now (length m.topics) result c
        ≡ table_in m topic from (fields_of s rest.now) c }
    ensures held { NextDueHolds (model_at model.now.bytes.now) model.now.bytes.now result }
{
    let part = lines::name_field(rest)?;
    let end = part.start + part.len;
    let found = find_table(model, &rest[part.start..end], topic, from);
    let t = found.map_err(|reason| Refusal { reason, field: 2 })?;
    lines::end_line(&rest[end..], 3, Due::Object(t))
}

// The fields behind ETOP.
fn end_topic(model: &Records<'_>, rest: &[u8], topic: usize, from: usize) -> Result<Due, Refusal>
    requires placed { Placed model.now }
    requires topic_lt_topics { topic < model.now.shape.topics }
    ensures meant { (s : ℕ) (c : Content) → let m = model_at model.now.bytes.now in
        marked_of model.now.bytes.now (length m.topics) result c
        ≡ topic_end_in m topic from (fields_of s rest.now) c }
    ensures held { NextDueHolds (model_at model.now.bytes.now) model.now.bytes.now result }
{
    if has_mandatory(model, topic, from) {
        return Err(Refusal {
            reason: Reason::TableSkipped,
            field: 1,
        });
    }
    lines::end_line(rest, 2, Due::Frame(FrameDue::Topic(topic + 1)))
}

// TABL of a table of this topic, `from` or a later one, or ETOP.
pub fn table_line(
    model: &Records<'_>,
    line: &[u8],
    topic: usize,
    from: usize,
) -> Result<Due, Refusal>
    requires placed { Placed model.now }
    requires topic_lt_topics { topic < model.now.shape.topics }
    ensures meant { (rooms : Rooms) (text : List ℕ) (s : ℕ) (c : Content) →
        let m = model_at model.now.bytes.now in
        marked_of model.now.bytes.now (length m.topics) result c
        ≡ table_line m rooms text topic from (fields_of s line.now) c }
    ensures held { NextDueHolds (model_at model.now.bytes.now) model.now.bytes.now result }
{
    let head = codes::head_of(line);
    let rest = &line[head.behind..];
    match head.code {
        Some(Code::Etop) => end_topic(model, rest, topic, from),
        Some(Code::Tabl) => begin_table(model, rest, topic, from),
        _ => Err(Refusal {
            reason: Reason::OtherCode,
            field: 1,
        }),
    }
}

// What may follow the objects of this table: ETAB.
pub fn behind_objects(model: &Records<'_>, line: &[u8], table: usize) -> Result<Due, Refusal>
    requires placed { Placed model.now }
    requires table_lt_tables { table < model.now.shape.tables }
    ensures meant { (rooms : Rooms) (text : List ℕ) (s : ℕ) (c : Content) →
        let m = model_at model.now.bytes.now in
        next_due_of model.now.bytes.now result c ≡ behind_objects m rooms text table (fields_of s line.now) c }
    ensures held { NextDueHolds (model_at model.now.bytes.now) model.now.bytes.now result }
{
    let topic = model.topic_of(table);
    lines::alone_line(
        line,
        Code::Etab,
        Due::Frame(FrameDue::Table(topic, table + 1)),
    )
}
