// The references of a row, and of all rows.
ghost use Rattle.std.specs.Prelude.{◌≡◌, ◌+◌, ◌<◌, length, get_or, take};
ghost use Rattle.meaning.specs.Model.{target_of, attribute_of};
ghost use Rattle.meaning.specs.Table.{resolve_pair, resolve_pairs, resolve_rows};
ghost use Rattle.model_records.specs.Records.{model_at, payload_at, pairs_at};
ghost use Rattle.model_records.specs.Places.{Placed};
ghost use Rattle.model_records.specs.AtRecord.{AttributeHere};
ghost use Rattle.table.specs.Rows.{PairHere, RowsLaidOut};
ghost use Rattle.read_references.specs.Resolved.{resolved_of, objects_named, Known, Indexed, RowHere};

use crate::{ObjectRows, Unresolved, pairs};
use model_records::places::Records;
use model_records::{REFERENCE, counts};

// The attribute of the record at a byte, where it is a reference: this object's pair at this cell.
fn resolve_attribute(
    model: &[u8],
    named: &ObjectRows<'_>,
    cells: &mut [i64],
    at: usize,
    cell: usize,
    object: usize,
    field: usize,
) -> Result<(), Unresolved>
    requires attribute_here { AttributeHere model.now at }
    requires objects_known { Known named.now cells.old }
    requires pair_here { PairHere named.now.rows.now named.now.count cell cells.old }
    ensures { let cs = cells.old in
        resolved_of result cells.new
        ≡ resolve_pair named.now.text.now (objects_named named.now cs) object field cell
        (target_of (attribute_of at (payload_at model.now at)).type) cs }
{
    if model[at + 5] != REFERENCE {
        return Ok(());
    }
    let table = usize::from(model_records::numbers::u16_at(model, at + 6));
    pairs::resolve_pair(named, cells, table, cell, object, field)
}

// The row of this object, whose table's attribute records begin at the byte `first`.
fn resolve_row(
    model: &[u8],
    named: &ObjectRows<'_>,
    cells: &mut [i64],
    first: usize,
    object: usize,
) -> Result<(), Unresolved>
    requires indexed { Indexed named.now cells.old }
    requires row_here { let r = named.now in
        RowHere (model_at model.now) model.now r.rows.now r.count object first (length cells.old) }
    ensures { let r = named.now in let cs = cells.old in
        resolved_of result cells.new
        ≡ resolve_pairs r.text.now (objects_named r cs) object 3
        (get_or r.rows.now object 0 + 3) (pairs_at model.now first) cs }
{
    let mut field = 3;
    let mut cell = named.rows[object] as usize + 3;
    for at in model_records::attribute_records(model, first) {
        resolve_attribute(model, named, cells, at, cell, object, field)?;
        let counts = counts::count_of(model[at + 5]);
        field += counts.fields;
        cell += 2 * counts.pairs;
    }
    Ok(())
}

// The rows in order; all their cells are lent, and no more.
pub fn resolve_references(
    model: &Records<'_>,
    named: &ObjectRows<'_>,
    cells: &mut [i64],
) -> Result<(), Unresolved>
    requires placed { Placed model.now }
    requires indexed { Indexed named.now cells.old }
    requires rows_laid_out { let r = named.now in
        RowsLaidOut (model_at model.now.bytes.now) r.count (length cells.old) r.rows.now cells.old }
    ensures { let r = named.now in let cs = cells.old in
        resolved_of result cells.new
        ≡ resolve_rows r.text.now (objects_named r cs) (model_at model.now.bytes.now).tables 0
        (take r.count r.rows.now) cs }
{
    for object in 0..named.count {
        let table = table::cells::size_at(cells, named.rows[object] as usize);
        let first = model.attributes_at(table);
        resolve_row(model.bytes, named, cells, first, object)?;
    }
    Ok(())
}
