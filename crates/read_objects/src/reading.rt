// An OBJE line of the table whose objects are read.
ghost use Rattle.std.specs.Prelude.{◌≡◌, ◌+◌, ◌-◌, ◌≤◌, length, take, drop};
ghost use Rattle.meaning.specs.Bytes.{refuse};
ghost use Rattle.meaning.specs.Field.{fields_of};
ghost use Rattle.meaning.specs.Reading.{stretch, objects_of, is_used};
ghost use Rattle.meaning.specs.Lines.{no, object_fields};
ghost use Rattle.model_records.specs.Records.{model_at};
ghost use Rattle.table_index.specs.Index.{hash_of};
ghost use Rattle.table_index.specs.Holds.{IndexedTable};
ghost use Rattle.read_state.specs.Buffers.{SameBuffers};
ghost use Rattle.read_objects.specs.Tables.{TableHolds};
ghost use Rattle.read_objects.specs.Rows.{RowAdds, row_meant};

use crate::storing::Name;
use crate::{OpenTable, naming, storing};
use base::parts::Part;
use base::reasons::{Reason, Refusal};
use model_records::places::Records;
use read_state::{Buffers, Line, State};
use table_index::Objects;

// Whether one of the objects read so far has this identification.
fn is_used(text: &[u8], table: &Buffers<'_>, state: State, name: Name) -> bool
    requires part_in_bounds { name.part.start + name.part.len ≤ length text.now }
    requires hash_value { let i = name.part in name.hash ≡ hash_of table.now.seed (stretch text.now i.start i.len) }
    requires indexed_table { let r = table.now in
        IndexedTable r.seed text.now state.rows state.cells r.rows.now r.cells.now r.index.now }
    ensures { let t = text.now in let i = name.part in
        result ≡ is_used (stretch t i.start i.len)
        (objects_of t (take state.cells table.now.cells.now) (take state.rows table.now.rows.now)) }
{
    let objects = Objects {
        text,
        rows: &*table.rows,
        cells: &*table.cells,
        index: &*table.index,
        count: state.rows,
        seed: table.seed,
    };
    let end = name.part.start + name.part.len;
    objects.is_used(name.hash, &text[name.part.start..end])
}

// The object whose identification is this part of the text: 15, then its row.
fn add_object(
    model: &Records<'_>,
    line: &Line<'_>,
    table: &mut Buffers<'_>,
    here: OpenTable,
    state: State,
    part: Part,
) -> Result<State, Refusal>
    requires model_len_bound { let r = model.now in
        (length r.bytes.now ≤ 65536) × (r.shape.undefined ≡ (model_at r.bytes.now).undefined) }
    requires table_holds { TableHolds (model_at model.now.bytes.now) model.now.bytes.now here }
    requires part_in_bounds { part.start + part.len ≤ line.now.end }
    requires indexed_table { let r = table.old in
        IndexedTable r.seed line.now.text.now state.rows state.cells r.rows.now r.cells.now r.index.now }
    ensures row { let b = model.now.bytes.now in let t = line.now.text.now in let r = table.old in
        RowAdds b t r.seed state
        (λ rooms c. refuse (is_used (stretch t part.start part.len) (objects_of t c.cells c.rows)) (no 15 2)
        (row_meant b t model.now.shape.undefined here part.start part.len line.now.end rooms c))
        r.rows.now table.new.rows.now r.cells.now table.new.cells.now
        r.index.now table.new.index.now result }
    ensures same { SameBuffers table.old table.new }
    ensures others { (table.new.marks ≡ table.old.marks) × (table.new.points ≡ table.old.points) }
{
    let end = part.start + part.len;
    let hash = table_index::hash(&line.text[part.start..end], table.seed);
    let name = Name { part, hash };
    if is_used(line.text, table, state, name) {
        return Err(Refusal {
            reason: Reason::IdentificationTwice,
            field: 2,
        });
    }
    storing::store_row(model, line, table, here, state, name)
}

// An OBJE line; its fields behind the code begin `behind` bytes from its start.
pub fn object_fields(
    model: &Records<'_>,
    line: &Line<'_>,
    behind: usize,
    table: &mut Buffers<'_>,
    here: OpenTable,
    state: State,
) -> Result<State, Refusal>
    requires model_len_bound { let r = model.now in
        (length r.bytes.now ≤ 65536) × (r.shape.undefined ≡ (model_at r.bytes.now).undefined) }
    requires table_holds { TableHolds (model_at model.now.bytes.now) model.now.bytes.now here }
    requires behind_bound { line.now.at + behind ≤ line.now.end }
    requires fields_behind { let at = line.now.at in let l = stretch line.now.text.now at (line.now.end - at) in
        (1 ≤ length (fields_of at l)) × (drop 1 (fields_of at l) ≡ fields_of (at + behind) (drop behind l)) }
    requires indexed_table { let r = table.old in
        IndexedTable r.seed line.now.text.now state.rows state.cells r.rows.now r.cells.now r.index.now }
    ensures row { let b = model.now.bytes.now in let t = line.now.text.now in let r = table.old in
        let at = line.now.at in
        RowAdds b t r.seed state
        (λ rooms c. object_fields (model_at b) rooms t here.table (fields_of at (stretch t at (line.now.end - at))) c)
        r.rows.now table.new.rows.now r.cells.now table.new.cells.now
        r.index.now table.new.index.now result }
    ensures same { SameBuffers table.old table.new }
    ensures others { (table.new.marks ≡ table.old.marks) × (table.new.points ≡ table.old.points) }
{
    let from = line.at + behind;
    let name = naming::take_identification(&line.text[from..line.end], model.shape.undefined);
    let part = name.map_err(|reason| Refusal { reason, field: 2 })?;
    let start = from + part.start;
    let part = Part {
        start,
        len: part.len,
    };
    add_object(model, line, table, here, state, part)
}
