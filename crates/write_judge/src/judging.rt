// The judge of a lent table: "row list, cells, points and marks must be exactly those of a reading".
ghost use Rattle.std.specs.Prelude.{◌≡◌, [], ◌∷◌, ◌*◌, leb, length};
ghost use Rattle.meaning.specs.Bytes.{all_of};
ghost use Rattle.meaning.specs.Judge as meaning;
ghost use Rattle.model_records.specs.Records.{model_at};
ghost use Rattle.model_records.specs.Places.{Placed};
ghost use Rattle.write_judge.specs.Marks.{Judging};
ghost use Rattle.table.specs.Contents.{content};
ghost use Rattle.write_judge.specs.Tables.{judge_used};
ghost use Rattle.meaning.specs.Writing.{lent_of};

use crate::{marks, rows};
use model_records::places::Records;
use table::{Table, Used};

// "A count above a lent length .. is 19": counts beside lengths; a point is four cells.
fn counts_fit(marks: usize, used: Used, table: &Table<'_>) -> bool
    ensures { let t = table.now in
        result ≡ all_of
        (leb marks (length t.marks.now) ∷ leb used.objects (length t.rows.now)
        ∷ leb used.cells (length t.cells.now) ∷ leb (4 * used.points) (length t.points.now) ∷ []) }
{
    (marks <= table.marks.len())
        & (used.objects <= table.rows.len())
        & (used.cells <= table.cells.len())
        & (used.points <= table.points.len() / 4)
}

// A table whose buffers are exactly what is used of them.
fn judge_used(model: &Records<'_>, table: &Table<'_>, index: &mut [u64], seed: u64) -> bool
    requires judging { Judging model.now table.now }
    ensures { result ≡ judge_used (model_at model.now.bytes.now) table.now.text.now (content table.now) }
{
    if !marks::are_marks(table.marks) {
        return false;
    }
    if !marks::judge_tables(model, table) {
        return false;
    }
    table_index::clear(index);
    rows::judge_rows(model, table, index, seed)
}

// Whether some lines read as a table in buffers of any lengths, with any counts of objects, cells and points.
// The index is working room: what it holds does not matter, and is not told.
pub fn judge(
    model: &Records<'_>,
    table: &Table<'_>,
    used: Used,
    index: &mut [u64],
    seed: u64,
) -> bool
    requires placed { Placed model.now }
    ensures { let t = table.now in
        result ≡ meaning.judge (model_at model.now.bytes.now)
        (lent_of t.text.now t.marks.now t.rows.now t.cells.now t.points.now
        used.objects used.cells used.points) }
{
    let marks = model.shape.topics + model.shape.tables;
    if !counts_fit(marks, used, table) {
        return false;
    }
    judge_used(model, &table.cut(marks, used), index, seed)
}
