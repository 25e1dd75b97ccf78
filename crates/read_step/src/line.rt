// One line, by what is due.
ghost use Rattle.std.specs.Prelude.{◌≡◌, List, ℕ, ◌-◌, ◌<◌, ℤ, length};
ghost use Rattle.meaning.specs.Field.{fields_of};
ghost use Rattle.meaning.specs.Reading.{Rooms, stretch};
ghost use Rattle.meaning.specs.Lines.{line_due, object_line};
ghost use Rattle.model_records.specs.Records.{model_at};
ghost use Rattle.model_records.specs.Places.{Placed};
ghost use Rattle.read_state.specs.Meaning.{frame_due_of, next_due_of, marked_of, content_of, step_of};
ghost use Rattle.read_state.specs.Buffers.{SameBuffers};
ghost use Rattle.read_state.specs.Holds.{FrameHolds, Holds};
ghost use Rattle.table_index.specs.Holds.{IndexedTable};
ghost use Rattle.read_frame.specs.Moves.{NextDueHolds};
ghost use Rattle.read_polylines.specs.Ways.{StepHolds};
ghost use Rattle.read_objects.specs.Rows.{RowAdds};
ghost use Rattle.read_step.specs.Steps.{Prepared, Steps, line_meant};

use crate::marks;
use base::reasons::{Reason, Refusal};
use model_records::places::Records;
use read_frame::codes::Code;
use read_frame::{beginning, codes, lines, tables, topics};
use read_objects::OpenTable;
use read_state::{Buffers, Due, FrameDue, Line, State};

// A line that adds nothing to the table.
fn plain_step(state: State, moved: Result<Due, Refusal>) -> Result<State, Refusal>
    ensures step { (b : List ℕ) (k : ℕ) (marks rows : List ℕ) (cells points : List ℤ)
        → step_of b k result marks rows cells points
        ≡ next_due_of b moved (content_of k state marks rows cells points) }
    ensures holds { (b text : List ℕ) (seed : ℕ) (marks rows : List ℕ) (cells points : List ℤ) (index : List ℕ)
        → NextDueHolds (model_at b) b moved → Holds (model_at b) b text seed state marks rows cells points index
        → StepHolds (model_at b) b text seed result marks rows cells points index }
{
    Ok(State {
        due: moved?,
        ..state
    })
}

// A line that may begin a topic or a table; there is a mark for each, and no more.
fn marked_step(
    topics: usize,
    marks: &mut [u8],
    state: State,
    moved: Result<Due, Refusal>,
) -> Result<State, Refusal>
    ensures step { (b rows : List ℕ) (cells points : List ℤ)
        → step_of b (length marks.old) result marks.new rows cells points
        ≡ marked_of b topics moved
        (content_of (length marks.old) state marks.old rows cells points) }
    ensures holds { (b text : List ℕ) (seed : ℕ) (rows : List ℕ) (cells points : List ℤ) (index : List ℕ)
        → NextDueHolds (model_at b) b moved
        → Holds (model_at b) b text seed state marks.old rows cells points index
        → StepHolds (model_at b) b text seed result marks.new rows cells points index }
{
    let due = moved?;
    marks::mark_due(marks, topics, due);
    Ok(State { due, ..state })
}

// A line outside objects.
fn frame_line(
    model: &Records<'_>,
    line: &[u8],
    marks: &mut [u8],
    due: FrameDue,
    state: State,
) -> Result<State, Refusal>
    requires prepared { Prepared model.now marks.old }
    requires frame_holds { FrameHolds (model_at model.now.bytes.now) due }
    ensures step { (rooms : Rooms) (text : List ℕ) (start : ℕ) (rows : List ℕ) (cells points : List ℤ)
        → let n = length marks.old in
        step_of model.now.bytes.now n result marks.new rows cells points
        ≡ line_due (model_at model.now.bytes.now) rooms text (frame_due_of due) line.now
        (fields_of start line.now) (content_of n state marks.old rows cells points) }
    ensures holds { (text : List ℕ) (seed : ℕ) (rows : List ℕ) (cells points : List ℤ) (index : List ℕ)
        → let b = model.now.bytes.now in Holds (model_at b) b text seed state marks.old rows cells points index
        → StepHolds (model_at b) b text seed result marks.new rows cells points index }
{
    match due {
        FrameDue::Opening => plain_step(state, lines::opening_line(line)),
        FrameDue::Description => plain_step(state, lines::description_line(line)),
        FrameDue::Transfer => plain_step(state, beginning::transfer_line(model.bytes, line)),
        FrameDue::ModelName => plain_step(state, beginning::model_line(model.bytes, line)),
        FrameDue::Topic(from) => marked_step(
            model.shape.topics,
            marks,
            state,
            topics::topic_line(model, line, from),
        ),
        FrameDue::Table(topic, from) => marked_step(
            model.shape.topics,
            marks,
            state,
            tables::table_line(model, line, topic, from),
        ),
        FrameDue::Closing => plain_step(state, lines::closing_line(line)),
        FrameDue::Nothing => Err(Refusal {
            reason: Reason::OtherCode,
            field: 1,
        }),
    }
}

// OBJE of this table, or what may follow its objects.
fn object_line(
    model: &Records<'_>,
    line: &Line<'_>,
    buffers: &mut Buffers<'_>,
    table: usize,
    state: State,
) -> Result<State, Refusal>
    requires placed { Placed model.now }
    requires table_lt_tables { table < model.now.shape.tables }
    requires indexed_table { IndexedTable buffers.old.seed line.now.text.now state.rows state.cells
        buffers.old.rows.now buffers.old.cells.now buffers.old.index.now }
    ensures row { let t = line.now.text.now in let at = line.now.at in
        RowAdds model.now.bytes.now t buffers.old.seed state
        (λ rooms c. object_line (model_at model.now.bytes.now) rooms t table
        (fields_of at (stretch t at (line.now.end - at))) c)
        buffers.old.rows.now buffers.new.rows.now buffers.old.cells.now buffers.new.cells.now
        buffers.old.index.now buffers.new.index.now result }
    ensures same { SameBuffers buffers.old buffers.new }
    ensures others { (buffers.new.marks ≡ buffers.old.marks) × (buffers.new.points ≡ buffers.old.points) }
{
    let head = codes::head_of(line.bytes());
    if head.code != Some(Code::Obje) {
        return plain_step(state, tables::behind_objects(model, line.bytes(), table));
    }
    let here = OpenTable {
        table,
        at: model.attributes_at(table),
    };
    read_objects::reading::object_fields(model, line, head.behind, buffers, here, state)
}

// A line, by what is due.
pub fn step_line(
    model: &Records<'_>,
    line: &Line<'_>,
    buffers: &mut Buffers<'_>,
    state: State,
) -> Result<State, Refusal>
    requires prepared { Prepared model.now buffers.old.marks.now }
    requires holds { let b = model.now.bytes.now in let u = buffers.old in
        Holds (model_at b) b line.now.text.now u.seed state
        u.marks.now u.rows.now u.cells.now u.points.now u.index.now }
    ensures steps { let at = line.now.at in let u = buffers.old in let v = buffers.new in
        let meant = line_meant model.now.bytes.now line.now.text.now at (line.now.end - at) state.due in
        Steps model.now.bytes.now line.now.text.now u.seed state meant
        u.marks.now u.rows.now u.cells.now u.points.now u.index.now
        v.marks.now v.rows.now v.cells.now v.points.now v.index.now result }
    ensures same { SameBuffers buffers.old buffers.new }
{
    match state.due {
        Due::Object(table) => object_line(model, line, buffers, table, state),
        Due::Line(polyline) => read_polylines::attribute_line(
            model.bytes,
            line.bytes(),
            model.shape.undefined,
            buffers.cells,
            buffers.points,
            polyline,
            state,
        ),
        Due::Frame(frame) => frame_line(model, line.bytes(), buffers.marks, frame, state),
    }
}
