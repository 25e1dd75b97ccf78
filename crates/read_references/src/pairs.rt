// The pair of a reference.
ghost use Rattle.std.specs.Prelude.{◌≡◌, ◌+◌, ◌<◌, pos, length, set};
ghost use Rattle.meaning.specs.Model.{found};
ghost use Rattle.meaning.specs.Table.{resolve_pair};
ghost use Rattle.table.specs.Rows.{PairHere};
ghost use Rattle.read_references.specs.Resolved.{resolved_of, objects_named, Known};

use crate::{ObjectRows, Unresolved};
use table_index::Objects;

// The number of the object, in the place of its identification's stretch.
fn put_reference(cells: &mut [i64], cell: usize, o: usize)
    requires cell_in_bounds { cell + 1 < length cells.old }
    requires o_bound { o < 9223372036854775808 }
    ensures { cells.new ≡ set (set cells.old cell (pos 1)) (cell + 1) (pos o) }
{
    cells[cell] = 1;
    cells[cell + 1] = o as i64;
}

// This object's field is a reference to a table: nothing where it is undefined, else the number of the object it names.
pub(crate) fn resolve_pair(
    named: &ObjectRows<'_>,
    cells: &mut [i64],
    table: usize,
    cell: usize,
    object: usize,
    field: usize,
) -> Result<(), Unresolved>
    requires objects_known { Known named.now cells.old }
    requires pair_here { PairHere named.now.rows.now named.now.count cell cells.old }
    ensures { let cs = cells.old in
        resolved_of result cells.new
        ≡ resolve_pair named.now.text.now (objects_named named.now cs) object field cell (found table) cs }
{
    let a = table::cells::size_at(cells, cell);
    if a == 0 {
        return Ok(());
    }
    let b = table::cells::size_at(cells, cell + 1);
    let part = table::stretches::cut_stretch(named.text.len(), b, a - 1);
    let objects = Objects {
        text: named.text,
        rows: named.rows,
        cells: &*cells,
        index: named.index,
        count: named.count,
        seed: named.seed,
    };
    let found = objects.find_reference(table, part.start, part.len);
    let o = found.ok_or(Unresolved { object, field })?;
    put_reference(cells, cell, o);
    Ok(())
}
