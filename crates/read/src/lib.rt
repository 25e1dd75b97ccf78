//! Reading: a file under a model into lent buffers.
#![tactic(auto)]

ghost use Rattle.std.specs.Prelude.{◌≡◌, ◌+◌, ◌≤◌, ◌<◌, ◌^◌, length, replicate};
ghost use Rattle.meaning.specs.Unfold.{unfold_file};
ghost use Rattle.meaning.specs.Check.{good, check_model};
ghost use Rattle.meaning.specs.Reading.{Rooms, rooms_of, start_of};
ghost use Rattle.meaning.specs.Lines.{read_lines};
ghost use Rattle.meaning.specs.Table.{read_run};
ghost use Rattle.meaning.specs.Table as table;
ghost use Rattle.model_records.specs.Records.{model_at};
ghost use Rattle.model_records.specs.Places.{Placed};
ghost use Rattle.read.specs.Unfolded.{unfolded_read};
ghost use Rattle.read_state.specs.Buffers.{SameBuffers};
ghost use Rattle.read_text.specs.Text.{lines_of};
ghost use Rattle.read_text.specs.Outcomes.{answer_of, Fits, MarksRead, ReadInto, TableRead};

use base::reasons::{Reason, Refused};
use model_records::places::{Records, place_records};
use read_state::Buffers;
use read_text::{Answer, finishing, tables};

// The exact unfolded text, with a mark for each topic and table. On its own: the borrow checker does not yet cover
// buffers of which one is a part of another's.
fn read_exact(
    model: &Records<'_>,
    text: &[u8],
    marks: &mut [u8],
    rows: &mut [u64],
    cells: &mut [i64],
    points: &mut [i64],
    index: &mut [u64],
    seed: u64,
) -> Answer
    requires placed { Placed model.now }
    requires mark_count { length marks.old ≡ model.now.shape.topics + model.now.shape.tables }
    requires text_len_bound { length text.now < 2 ^ 62 }
    ensures read { (rooms : Rooms) → rooms.rows ≡ length rows.old → rooms.cells ≡ length cells.old
        → rooms.points ≡ length points.old
        → let m = model_at model.now.bytes.now in let t = text.now in
        TableRead (read_run m rooms t (read_lines m rooms t (start_of m) (lines_of t))) rooms t
        marks.new rows.new cells.new points.new result }
    ensures fits { Fits rows.new cells.new points.new result }
{
    let mut buffers = Buffers {
        marks,
        rows,
        cells,
        points,
        index,
        seed,
    };
    tables::read_table(model, text, &mut buffers)
}

// The exact unfolded text; 6 where there are too few marks.
fn read_unfolded(
    model: &Records<'_>,
    text: &[u8],
    marks: &mut [u8],
    rows: &mut [u64],
    cells: &mut [i64],
    points: &mut [i64],
    index: &mut [u64],
    seed: u64,
) -> Answer
    requires placed { Placed model.now }
    requires text_len_bound { length text.now < 2 ^ 62 }
    ensures read { (rooms : Rooms) → rooms.marks ≡ length marks.old
        → rooms.rows ≡ length rows.old → rooms.cells ≡ length cells.old
        → rooms.points ≡ length points.old
        → let m = model_at model.now.bytes.now in let t = text.now in
        MarksRead (unfolded_read m rooms t) rooms t
        marks.new rows.new cells.new points.new result }
    ensures fits { Fits rows.new cells.new points.new result }
{
    let count = model.shape.topics + model.shape.tables;
    marks.fill(0);
    if marks.len() < count {
        return Err(Refused {
            reason: Reason::RoomTooSmall,
            first: 0,
            second: 0,
        });
    }
    let exact = &mut marks[..count];
    read_exact(model, text, exact, rows, cells, points, index, seed)
}

// Under a good model.
fn read_good(model: &[u8], file: &[u8], text: &mut [u8], buffers: &mut Buffers<'_>) -> Answer
    requires model_value { check_model model.now ≡ good (model_at model.now) }
    requires file_len_bound { length file.now ≤ 16777216 }
    ensures read { let u = buffers.old in let v = buffers.new in
        let rooms = rooms_of text.old u.marks.now u.rows.now u.cells.now u.points.now in
        let m = model_at model.now in
        ReadInto (table.read_unfolded m rooms (unfold_file m.mark file.now)) rooms
        text.new v.marks.now v.rows.now v.cells.now v.points.now result }
    ensures fits { Fits buffers.new.rows.now buffers.new.cells.now buffers.new.points.now result }
    ensures same { SameBuffers buffers.old buffers.new }
{
    let records = place_records(model);
    let used = unfold::unfold_with(file, records.shape.mark, text)?;
    let seed = buffers.seed;
    let marks = &mut *buffers.marks;
    let rows = &mut *buffers.rows;
    let cells = &mut *buffers.cells;
    let points = &mut *buffers.points;
    let index = &mut *buffers.index;
    read_unfolded(
        &records,
        &text[..used],
        marks,
        rows,
        cells,
        points,
        index,
        seed,
    )
}

// The answer, and what the buffers hold before they are cleared.
fn read_into(model: &[u8], file: &[u8], text: &mut [u8], buffers: &mut Buffers<'_>) -> Answer
    ensures read { let u = buffers.old in let v = buffers.new in
        let rooms = rooms_of text.old u.marks.now u.rows.now u.cells.now u.points.now in
        ReadInto (table.read model.now file.now rooms) rooms
        text.new v.marks.now v.rows.now v.cells.now v.points.now result }
    ensures fits { Fits buffers.new.rows.now buffers.new.cells.now buffers.new.points.now result }
    ensures same { SameBuffers buffers.old buffers.new }
{
    if 16777216 < file.len() {
        return Err(Refused {
            reason: Reason::FileTooLong,
            first: 0,
            second: 0,
        });
    }
    model_check::check::check(model)?;
    read_good(model, file, text, buffers)
}

// Reads a file under a model: the answer's four numbers, and the table in the lent buffers. A refusal leaves nothing
// but zeros. The parameters are those of the C call.
pub fn read(
    model: &[u8],
    file: &[u8],
    text: &mut [u8],
    marks: &mut [u8],
    rows: &mut [u64],
    cells: &mut [i64],
    points: &mut [i64],
    index: &mut [u64],
    seed: u64,
) -> Answer
    ensures answer { let rooms = rooms_of text.old marks.old rows.old cells.old points.old in
        let meant = table.read model.now file.now rooms in answer_of result ≡ meant.answer }
    ensures text { let rooms = rooms_of text.old marks.old rows.old cells.old points.old in
        let meant = table.read model.now file.now rooms in text.new ≡ meant.text }
    ensures marks { let rooms = rooms_of text.old marks.old rows.old cells.old points.old in
        let meant = table.read model.now file.now rooms in marks.new ≡ meant.marks }
    ensures rows { let rooms = rooms_of text.old marks.old rows.old cells.old points.old in
        let meant = table.read model.now file.now rooms in rows.new ≡ meant.rows }
    ensures cells { let rooms = rooms_of text.old marks.old rows.old cells.old points.old in
        let meant = table.read model.now file.now rooms in cells.new ≡ meant.cells }
    ensures points { let rooms = rooms_of text.old marks.old rows.old cells.old points.old in
        let meant = table.read model.now file.now rooms in
        points.new ≡ meant.points }
    ensures index { index.new ≡ replicate (length index.old) 0 }
{
    let mut buffers = Buffers {
        marks: &mut *marks,
        rows: &mut *rows,
        cells: &mut *cells,
        points: &mut *points,
        index: &mut *index,
        seed,
    };
    let answer = read_into(model, file, text, &mut buffers);
    finishing::finish(answer, text, marks, rows, cells, points, index);
    answer
}
