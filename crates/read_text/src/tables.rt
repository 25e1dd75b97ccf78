// The table of an unfolded text: its lines, then its references.
ghost use Rattle.std.specs.Prelude.{◌≡◌, List, ℤ, ℕ, ◌*◌, ◌≤◌, ◌<◌, ◌^◌, length};
ghost use Rattle.meaning.specs.Reading.{start_of, Rooms};
ghost use Rattle.meaning.specs.Lines.{read_lines};
ghost use Rattle.meaning.specs.Table.{read_run, read_resolved, resolve};
ghost use Rattle.model_records.specs.Records.{model_at};
ghost use Rattle.table_index.specs.Holds.{IndexedTable};
ghost use Rattle.table.specs.Rows.{RowsLaidOut};
ghost use Rattle.model_records.specs.Places.{Placed};
ghost use Rattle.read_state.specs.Buffers.{SameBuffers};
ghost use Rattle.read_step.specs.Steps.{Prepared};
ghost use Rattle.read_text.specs.Text.{lines_of};
ghost use Rattle.read_text.specs.Outcomes.{Fits, used_of, TableRead};

use crate::{Answer, loops};
use model_records::places::Records;
use read_references::ObjectRows;
use read_references::rows::resolve_references;
use read_state::{Buffers, State};
use table::Used;

// "then 17 by object and field": the references of a table whose lines are all read.
fn resolve_all(
    model: &Records<'_>,
    text: &[u8],
    rows: &[u64],
    cells: &mut [i64],
    index: &[u64],
    seed: u64,
    state: State,
) -> Answer
    requires placed { Placed model.now }
    requires indexed_table { IndexedTable seed text.now state.rows state.cells rows.now cells.old index.now }
    requires rows_laid_out { let m = model_at model.now.bytes.now in
        RowsLaidOut m state.rows state.cells rows.now cells.old }
    ensures read { let m = model_at model.now.bytes.now in let t = text.now in
        (rooms : Rooms) (marks : List ℕ) (points : List ℤ) → 4 * state.points ≤ length points
        → let used = used_of marks rows.now cells.old points
        state.rows state.cells state.points in
        TableRead (read_resolved rooms t used (resolve m t used)) rooms t
        marks rows.now cells.new points result }
    ensures fits { (points : List ℤ) → 4 * state.points ≤ length points
        → Fits rows.now cells.new points result }
{
    let used = state.cells;
    let named = ObjectRows {
        text,
        rows,
        index,
        count: state.rows,
        seed,
    };
    resolve_references(model, &named, &mut cells[..used])?;
    Ok(Used {
        objects: state.rows,
        cells: used,
        points: state.points,
    })
}

// The table of the exact unfolded text; there is a mark for each topic and table, and no more.
pub fn read_table(model: &Records<'_>, text: &[u8], buffers: &mut Buffers<'_>) -> Answer
    requires prepared { Prepared model.now buffers.old.marks.now }
    requires text_len_bound { length text.now < 2 ^ 62 }
    ensures read { let m = model_at model.now.bytes.now in let t = text.now in
        let u = buffers.old in let v = buffers.new in
        (rooms : Rooms) → rooms.rows ≡ length u.rows.now → rooms.cells ≡ length u.cells.now
        → rooms.points ≡ length u.points.now
        → TableRead (read_run m rooms t (read_lines m rooms t (start_of m) (lines_of t))) rooms t
        v.marks.now v.rows.now v.cells.now v.points.now result }
    ensures fits { Fits buffers.new.rows.now buffers.new.cells.now buffers.new.points.now result }
    ensures same { SameBuffers buffers.old buffers.new }
{
    buffers.marks.fill(0);
    table_index::clear(buffers.index);
    let state = loops::read_lines(model, text, buffers)?;
    let seed = buffers.seed;
    let rows = &mut *buffers.rows;
    let cells = &mut *buffers.cells;
    let index = &mut *buffers.index;
    resolve_all(model, text, rows, cells, index, seed, state)
}
