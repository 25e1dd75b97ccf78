// Rows: "An object's row: table number, start and length of the identification in the unfolded text", then its pairs.
ghost use Rattle.std.specs.Prelude.{◌≡◌, true, not, ◌&&◌, [], ◌+◌, ◌≤◌, ◌<◌, leb, IfSome, pos, length, get_or, take};
ghost use Rattle.std.specs.Prelude.{replicate};
ghost use Rattle.std.specs.Int.Signed.{lt_z};
ghost use Rattle.meaning.specs.Bytes.{choose};
ghost use Rattle.meaning.specs.Reading.{objects_of, is_used};
ghost use Rattle.meaning.specs.Judge.{row_end, judge_row, judge_rows};
ghost use Rattle.model_records.specs.Records.{model_at};
ghost use Rattle.table.specs.Rows.{identification_of, Row};
ghost use Rattle.write_judge.specs.Marks.{Judging};
ghost use Rattle.table.specs.Contents.{content};
ghost use Rattle.write_judge.specs.Rows.{Known, AtRow, table_tests, name_tests, rows_from, RowTurn};

use crate::{cells, pairs};
use model_records::counts;
use model_records::places::{Records, Shape};
use table::Table;
use table_index::Objects;

// Where the next row has to start, the count of points before it, and the least table that it may be of.
#[derive(Clone, Copy)]
pub(crate) struct Place {
    pub least: usize,
    pub at: usize,
    pub points: usize,
}

// Is a cell below a number?
fn is_below_at(cells: &[i64], cell: usize, n: usize) -> bool
    requires { cell < length cells.now }
    ensures { result ≡ lt_z (get_or cells.now cell (pos 0)) (pos n) }
{
    cells::is_below(cells[cell], n)
}

// The row's table: no earlier than the one before, and delivered.
fn judge_table(shape: Shape, table: &Table<'_>, at: usize, least: usize) -> bool
    requires at_in_bounds { at < length table.now.cells.now }
    requires tables_in_bounds { shape.topics + shape.tables ≤ length table.now.marks.now }
    ensures { result ≡ table_tests shape table.now least at }
{
    if is_below_at(table.cells, at, least) {
        return false;
    }
    if !is_below_at(table.cells, at, shape.tables) {
        return false;
    }
    table.marks[shape.topics + table::cells::size_at(table.cells, at)] != 0
}

// The cell behind the row, where it is of a table that may come here and lies within the cells.
fn end_of_row(model: &Records<'_>, table: &Table<'_>, at: usize, least: usize) -> Option<usize>
    requires judging { Judging model.now table.now }
    requires at_in_bounds { at ≤ length table.now.cells.now }
    ensures { let cells = table.now.cells.now in
        let end = row_end (model_at model.now.bytes.now) cells at in
        result ≡ choose (table_tests model.now.shape table.now least at
        && leb end (length cells)) (Some end) None }
{
    let room = table.cells.len() - at;
    if room < 3 {
        return None;
    }
    if !judge_table(model.shape, table, at, least) {
        return None;
    }
    let number = table::cells::size_at(table.cells, at);
    let pairs = counts::count_pairs(model.bytes, model.attributes_at(number));
    if (room - 3) / 2 < pairs {
        return None;
    }
    Some(at + 3 + 2 * pairs)
}

// The row's identification is one, and lies in the text.
fn judge_name(table: &Table<'_>, undefined: u8, at: usize) -> bool
    requires { at + 2 < length table.now.cells.now }
    ensures { result ≡ name_tests table.now undefined at }
{
    if is_below_at(table.cells, at + 2, 1) {
        return false;
    }
    let size = table::cells::size_at(table.cells, at + 2);
    cells::judge_stretch(table.text, undefined, table.cells[at + 1], size)
}

// "identifications are unique in the file": this object's is not used by the objects before, and goes into the index.
fn add_name(table: &Table<'_>, index: &mut [u64], seed: u64, object: usize) -> bool
    requires known { Known seed table.now index.old object }
    requires object_in_bounds { let rows = table.now.rows.now in
        (object < length rows) × Row table.now.text.now table.now.cells.now (get_or rows object 0) }
    ensures unused { let t = table.now in
        result ≡ not (is_used
        (identification_of t.text.now t.rows.now t.cells.now object)
        (objects_of t.text.now t.cells.now (take object t.rows.now))) }
    ensures known { result ≡ true → Known seed table.now index.new (object + 1) }
{
    let row = table.rows[object] as usize;
    let name = table::rows::identification_at(table.cells, row);
    let identification = &table.text[name.start..name.start + name.len];
    let hash = table_index::hash(identification, seed);
    let before = Objects {
        text: table.text,
        rows: table.rows,
        cells: table.cells,
        index: &*index,
        count: object,
        seed,
    };
    if before.is_used(hash, identification) {
        return false;
    }
    table_index::insert(index, table.rows.len(), object, hash);
    true
}

// The cell behind the row of this object, where it is fine up to its pairs. A fine row goes into the index.
fn judge_row(
    model: &Records<'_>,
    table: &Table<'_>,
    index: &mut [u64],
    seed: u64,
    object: usize,
    place: Place,
) -> Option<usize>
    requires judging { Judging model.now table.now }
    requires known { Known seed table.now index.old object }
    requires object_in_bounds { let rows = table.now.rows.now in
        (object < length rows) × (get_or rows object 0 ≡ place.at)
        × (place.at ≤ length table.now.cells.now) }
    ensures end { let m = model_at model.now.bytes.now in
        let t = table.now in
        result ≡ choose (judge_row m t.text.now (content t)
        place.least place.at (take object t.rows.now)) (Some (row_end m t.cells.now place.at)) None }
    ensures known { IfSome result (λ _. Known seed table.now index.new (object + 1)) }
{
    let end = end_of_row(model, table, place.at, place.least)?;
    if !judge_name(table, model.shape.undefined, place.at) {
        return None;
    }
    if !add_name(table, index, seed, object) {
        return None;
    }
    Some(end)
}

// The row of this object and its pairs: the place of the next row, where they are fine.
fn judge_object(
    model: &Records<'_>,
    table: &Table<'_>,
    index: &mut [u64],
    seed: u64,
    object: usize,
    place: Place,
) -> Option<Place>
    requires judging { Judging model.now table.now }
    requires object_in_bounds { object < length table.now.rows.now }
    requires at_row { AtRow seed table.now index.old object place }
    ensures { let from = rows_from (model_at model.now.bytes.now) table.now in
        RowTurn (from object place) (from (object + 1))
        (AtRow seed table.now index.new (object + 1)) result }
{
    if table.rows[object] as usize != place.at {
        return None;
    }
    let end = judge_row(model, table, index, seed, object, place)?;
    let number = table::cells::size_at(table.cells, place.at);
    let first = model.attributes_at(number);
    let points = pairs::judge_pairs(model, first, table, place.at + 3, place.points)?;
    Some(Place {
        least: number,
        at: end,
        points,
    })
}

// All rows, over buffers that are exactly what is used of them, and an index of no object.
pub(crate) fn judge_rows(
    model: &Records<'_>,
    table: &Table<'_>,
    index: &mut [u64],
    seed: u64,
) -> bool
    requires judging { Judging model.now table.now }
    requires index_value { index.old ≡ replicate (length index.old) 0 }
    ensures { let t = table.now in
        result ≡ judge_rows (model_at model.now.bytes.now) t.text.now (content t) 0 0 0 [] t.rows.now }
{
    let mut place = Place {
        least: 0,
        at: 0,
        points: 0,
    };
    for object in 0..table.rows.len() {
        let Some(next) = judge_object(model, table, index, seed, object, place) else {
            return false;
        };
        place = next;
    }
    (place.at == table.cells.len()) & (4 * place.points == table.points.len())
}
