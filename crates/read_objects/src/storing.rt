// A row that joins the table: its fields, its first three cells, its entry in the row list, and its link in the index.
ghost use Rattle.std.specs.Prelude.{◌≡◌, true, ◌||◌, [], ◌∷◌, ◌+◌, ◌*◌, ◌≤◌, ◌<◌, ◌^◌, leb, ltb, pos, length};
ghost use Rattle.std.specs.Prelude.{set};
ghost use Rattle.std.proofs.lemmas.List.Edits.{sets};
ghost use Rattle.meaning.specs.Field.{fields_of};
ghost use Rattle.meaning.specs.Row.{pair_cells};
ghost use Rattle.model_records.specs.Records.{model_at, pairs_at};
ghost use Rattle.model_records.specs.AtRecord.{AttributesHere};
ghost use Rattle.table_index.specs.Index.{insert_of};
ghost use Rattle.read_state.specs.Buffers.{SameBuffers};
ghost use Rattle.read_objects.specs.Tables.{TableHolds};
ghost use Rattle.read_objects.specs.Names.{NewName};
ghost use Rattle.read_objects.specs.Rows.{Fills, BehindRow, RowAdds, row_meant};

use crate::OpenTable;
use base::parts::Part;
use base::reasons::{Reason, Refusal};
use model_records::places::Records;
use read_state::{Buffers, Line, State};

// An identification: its part of the text, and its hash.
#[derive(Clone, Copy)]
pub struct Name {
    pub part: Part,
    pub hash: u64,
}

// The fields behind the identification, as pairs behind the place of the row's first three cells, where there is room.
fn fill_row(
    model: &[u8],
    at: usize,
    rest: &[u8],
    start: usize,
    undefined: u8,
    cells: &mut [i64],
    used: usize,
) -> Result<usize, Refusal>
    requires attributes_here { AttributesHere (model_at model.now) model.now at }
    requires rest_bound { start + length rest.now < 2 ^ 62 }
    requires used_in_bounds { used ≤ length cells.old }
    ensures { let b = model.now in
        Fills (pair_cells undefined true 3 (pairs_at b at) (fields_of start rest.now)) (2 * length b) (used + 3)
        cells.old cells.new result }
{
    let from = (used + 3).min(cells.len());
    crate::rows::row_fields(model, at, rest, start, undefined, &mut cells[from..])
}

// 16: "no room for a row, its cells".
fn lacks_room(rows: usize, cells: usize, objects: usize, needed: usize) -> bool
    ensures { result ≡ (leb rows objects || ltb cells needed) }
{
    rows <= objects || cells < needed
}

// "An object's row: table number, start and length of the identification in the unfolded text"
fn put_head(cells: &mut [i64], at: usize, table: usize, part: Part)
    requires at_in_bounds { at + 3 ≤ length cells.old }
    requires table_bound { (table < 2 ^ 63) × (part.start < 2 ^ 63) × (part.len < 2 ^ 63) }
    ensures { cells.new ≡ sets cells.old at (pos table ∷ pos part.start ∷ pos part.len ∷ []) }
{
    cells[at..at + 3].copy_from_slice(&[table as i64, part.start as i64, part.len as i64]);
}

// The row's first three cells, its first cell in the row list, and its object in the index.
fn add_row(table: &mut Buffers<'_>, here: OpenTable, state: State, name: Name)
    requires object_in_bounds { (state.rows < length table.old.rows.now)
        × (state.cells + 3 ≤ length table.old.cells.now) }
    requires table_bound { let i = name.part in
        (here.table < 2 ^ 63) × (i.start < 2 ^ 63) × (i.len < 2 ^ 63) × (name.hash < 4294967296) }
    ensures listed { table.new.rows.now ≡ set table.old.rows.now state.rows state.cells }
    ensures stored { let i = name.part in
        table.new.cells.now
        ≡ sets table.old.cells.now state.cells (pos here.table ∷ pos i.start ∷ pos i.len ∷ []) }
    ensures linked { table.new.index.now
        ≡ insert_of table.old.index.now (length table.old.rows.now) state.rows name.hash }
    ensures same { SameBuffers table.old table.new }
    ensures others { (table.new.marks ≡ table.old.marks) × (table.new.points ≡ table.old.points) }
{
    put_head(table.cells, state.cells, here.table, name.part);
    table.rows[state.rows] = state.cells as u64;
    table_index::insert(table.index, table.rows.len(), state.rows, name.hash);
}

// The state behind a row of so many cells.
fn state_behind(model: &Records<'_>, here: OpenTable, state: State, size: usize) -> State
    requires table_holds { TableHolds (model_at model.now.bytes.now) model.now.bytes.now here }
    requires rows_bound { (state.rows + 1 < 2 ^ 64) × (state.cells + size < 2 ^ 64)
        × (3 + 2 * length (pairs_at model.now.bytes.now here.at) ≤ size) }
    ensures { BehindRow model.now.bytes.now here state size result }
{
    let due = read_polylines::due_lines(
        model.bytes,
        here.table,
        here.at,
        state.cells + 3,
        state.points,
    );
    State {
        due,
        rows: state.rows + 1,
        cells: state.cells + size,
        points: state.points,
    }
}

// The row of a new identification: its fields from there to the line's end, then 16, then the row joins the table.
pub(crate) fn store_row(
    model: &Records<'_>,
    line: &Line<'_>,
    table: &mut Buffers<'_>,
    here: OpenTable,
    state: State,
    name: Name,
) -> Result<State, Refusal>
    requires model_len_bound { length model.now.bytes.now ≤ 65536 }
    requires table_holds { TableHolds (model_at model.now.bytes.now) model.now.bytes.now here }
    requires part_in_bounds { name.part.start + name.part.len ≤ line.now.end }
    requires cells_in_bounds { state.cells ≤ length table.old.cells.now }
    requires hash_bound { name.hash < 4294967296 }
    ensures row { let b = model.now.bytes.now in let t = line.now.text.now in let r = table.old in
        NewName t r.seed name state r.rows.now r.cells.now r.index.now
        → RowAdds b t r.seed state
        (row_meant b t model.now.shape.undefined here name.part.start name.part.len line.now.end)
        r.rows.now table.new.rows.now r.cells.now table.new.cells.now
        r.index.now table.new.index.now result }
    ensures same { SameBuffers table.old table.new }
    ensures others { (table.new.marks ≡ table.old.marks) × (table.new.points ≡ table.old.points) }
{
    let from = name.part.start + name.part.len;
    let n = fill_row(
        model.bytes,
        here.at,
        &line.text[from..line.end],
        from,
        model.shape.undefined,
        table.cells,
        state.cells,
    )?;
    let needed = state.cells + (3 + n);
    if lacks_room(table.rows.len(), table.cells.len(), state.rows, needed) {
        return Err(Refusal {
            reason: Reason::TableFull,
            field: 0,
        });
    }
    add_row(table, here, state, name);
    Ok(state_behind(model, here, state, 3 + n))
}
