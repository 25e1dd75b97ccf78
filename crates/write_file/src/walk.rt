// The lines of the tables of a topic, put behind what was put before.
ghost use Rattle.std.specs.Prelude.{◌≡◌, not, ◌&&◌, ◌+◌, ◌-◌, ◌≤◌, ◌<◌, eqb, length, take, drop, get_or};
ghost use Rattle.meaning.specs.Writing.{row_lines, table_lines};
ghost use Rattle.model_records.specs.Records.{model_at, pairs_at};
ghost use Rattle.model_records.specs.AtRecord.{AttributesHere};
ghost use Rattle.model_records.specs.Places.{topic_of, Placed};
ghost use Rattle.write_lines.specs.Puts.{Puts};
ghost use Rattle.write_file.specs.Styles.{cut_of};
ghost use Rattle.write_file.specs.Walks.{lines_of_table, TableEnd, TableTurn};
ghost use Rattle.table.specs.Contents.{content};

use crate::lines;
use model_records::numbers::byte_at;
use model_records::places::Records;
use table::Table;
use table::cells::size_at;
use write_lines::fields::put_nothing;
use write_lines::{LineStyle, Put};
use write_objects::objects;

// What was put, and the number of the row that comes next.
#[derive(Clone, Copy)]
pub(crate) struct RowsWritten {
    pub(crate) put: Put,
    pub(crate) row: usize,
}

// The number of the row behind the first rows of a table, which is told by its number.
fn behind_table(table: &Table<'_>, number: usize, row: usize) -> usize
    requires { row ≤ length table.now.rows.now }
    ensures { let t = table.now in TableEnd number t.cells.now t.rows.now row result }
{
    for i in row..table.rows.len() {
        if size_at(table.cells, table.rows[i] as usize) != number {
            return i;
        }
    }
    table.rows.len()
}

// The lines of the objects between two row numbers; the attribute records of their table begin at the byte `first`.
fn then_rows(
    put: Put,
    model: &[u8],
    first: usize,
    table: &Table<'_>,
    style: LineStyle,
    from: usize,
    to: usize,
    out: &mut [u8],
) -> Put
    requires attributes_here { AttributesHere (model_at model.now) model.now first }
    requires undefined_value { style.undefined ≡ (model_at model.now).undefined }
    requires from_le_to { (from ≤ to) × (to ≤ length table.now.rows.now) }
    ensures { let b = model.now in
        let t = table.now in
        let rs = take (to - from) (drop from t.rows.now) in
        let lines = row_lines (model_at b) t.text.now (content t) (pairs_at b first) rs in
        Puts (cut_of style lines) put out.old out.new result }
{
    let mut all = put_nothing(put);
    for row in &table.rows[from..to] {
        all = objects::put_object(model, first, table, style, *row as usize, out, all);
    }
    all
}

// The lines of the table of this number, with the objects between two row numbers.
fn then_table(
    put: Put,
    model: &Records<'_>,
    number: usize,
    table: &Table<'_>,
    style: LineStyle,
    from: usize,
    to: usize,
    out: &mut [u8],
) -> Put
    requires placed { Placed model.now }
    requires undefined_value { style.undefined ≡ (model_at model.now.bytes.now).undefined }
    requires number_lt_tables { number < model.now.shape.tables }
    requires from_le_to { (from ≤ to) × (to ≤ length table.now.rows.now) }
    ensures { let m = model_at model.now.bytes.now in
        let t = table.now in
        let rs = take (to - from) (drop from t.rows.now) in
        let lines = lines_of_table m t.text.now (content t) number rs in
        Puts (cut_of style lines) put out.old out.new result }
{
    let at = model.table_at(number);
    let next = model_records::next_at(model.bytes, at);
    let head = lines::then_named(put, b"TABL", &model.bytes[at + 5..next], style, out);
    let body = then_rows(head, model.bytes, next, table, style, from, to, out);
    lines::then_alone(body, b"ETAB", style, out)
}

// Whether the table of this number is one of this topic that is delivered.
fn is_due(model: &Records<'_>, topic: usize, number: usize, marks: &[u8]) -> bool
    requires { (model.now.shape.topics ≤ 64) × (number < 512) }
    ensures { let mark = get_or marks.now (model.now.shape.topics + number) 0 in
        result ≡ (eqb (topic_of model.now.places number) topic && not (eqb mark 0)) }
{
    let mark = byte_at(marks, model.shape.topics + number);
    (model.topic_of(number) == topic) & (mark != 0)
}

// The lines of the table of this number, where it is one of this topic and delivered.
fn pass_table(
    put: Put,
    model: &Records<'_>,
    topic: usize,
    number: usize,
    table: &Table<'_>,
    style: LineStyle,
    row: usize,
    out: &mut [u8],
) -> RowsWritten
    requires placed { Placed model.now }
    requires undefined_value { style.undefined ≡ (model_at model.now.bytes.now).undefined }
    requires number_lt_tables { number < model.now.shape.tables }
    requires row_in_bounds { row ≤ length table.now.rows.now }
    ensures { let m = model_at model.now.bytes.now in
        let t = table.now in
        TableTurn m t.text.now (content t) style topic number row put out.old out.new result }
{
    if !is_due(model, topic, number, table.marks) {
        return RowsWritten {
            put: put_nothing(put),
            row,
        };
    }
    let end = behind_table(table, number, row);
    let all = then_table(put, model, number, table, style, row, end, out);
    RowsWritten { put: all, row: end }
}

// The lines of the tables of a topic, from row number `row` on.
pub(crate) fn then_tables(
    put: Put,
    model: &Records<'_>,
    topic: usize,
    table: &Table<'_>,
    style: LineStyle,
    row: usize,
    out: &mut [u8],
) -> Put
    requires placed { Placed model.now }
    requires undefined_value { style.undefined ≡ (model_at model.now.bytes.now).undefined }
    requires row_in_bounds { row ≤ length table.now.rows.now }
    ensures { let m = model_at model.now.bytes.now in
        let t = table.now in
        let rs = drop row t.rows.now in
        let lines = table_lines m t.text.now (content t) topic 0 m.tables rs in
        Puts (cut_of style lines) put out.old out.new result }
{
    let mut all = put_nothing(put);
    let mut next = row;
    for number in 0..model.shape.tables {
        let walked = pass_table(all, model, topic, number, table, style, next, out);
        all = walked.put;
        next = walked.row;
    }
    all
}
