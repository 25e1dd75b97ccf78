// The lines of the topics, and of the whole file.
ghost use Rattle.std.specs.Prelude.{◌≡◌, [], ◌∷◌, ◌≤◌, ◌<◌, length, drop};
ghost use Rattle.meaning.specs.Model.{table_at};
ghost use Rattle.meaning.specs.Field.{SCNT, slashes, MTID, MODL};
ghost use Rattle.meaning.specs.Writing.{topic_lines, lines_of};
ghost use Rattle.meaning.specs.Width.{cut_lines};
ghost use Rattle.model_records.specs.Records.{model_at};
ghost use Rattle.model_records.specs.AtRecord.{Beginning};
ghost use Rattle.model_records.specs.Places.{Placed};
ghost use Rattle.write_lines.specs.Puts.{Puts};
ghost use Rattle.write_file.specs.Styles.{cut_of};
ghost use Rattle.write_file.specs.Walks.{lines_of_topic, TopicEnd, TopicTurn};
ghost use Rattle.table.specs.Contents.{content};

use crate::walk::RowsWritten;
use crate::{lines, walk};
use model_records::numbers::byte_at;
use model_records::places::Records;
use table::Table;
use table::cells::size_at;
use write_lines::fields::put_nothing;
use write_lines::{LineStyle, Put};

// The topic of a table, 0 where there is no such table.
fn owner_of(model: &Records<'_>, number: usize) -> usize
    requires { model.now.shape.tables ≤ 512 }
    ensures { Placed model.now → result ≡ (table_at (model_at model.now.bytes.now).tables number).topic }
{
    if number < model.shape.tables {
        model.topic_of(number)
    } else {
        0
    }
}

// The number of the row behind the first rows whose tables are of this topic.
fn behind_topic(model: &Records<'_>, table: &Table<'_>, topic: usize, row: usize) -> usize
    requires few_tables { model.now.shape.tables ≤ 512 }
    requires row_in_bounds { row ≤ length table.now.rows.now }
    ensures { let t = table.now in
        Placed model.now →
        TopicEnd (model_at model.now.bytes.now).tables topic t.cells.now t.rows.now row result }
{
    for i in row..table.rows.len() {
        let number = size_at(table.cells, table.rows[i] as usize);
        if owner_of(model, number) != topic {
            return i;
        }
    }
    table.rows.len()
}

// The lines of this topic.
fn then_topic(
    put: Put,
    model: &Records<'_>,
    topic: usize,
    table: &Table<'_>,
    style: LineStyle,
    row: usize,
    out: &mut [u8],
) -> Put
    requires placed { Placed model.now }
    requires undefined_value { style.undefined ≡ (model_at model.now.bytes.now).undefined }
    requires topic_lt_topics { topic < model.now.shape.topics }
    requires row_in_bounds { row ≤ length table.now.rows.now }
    ensures { let m = model_at model.now.bytes.now in
        let t = table.now in
        let lines = lines_of_topic m t.text.now (content t) topic (drop row t.rows.now) in
        Puts (cut_of style lines) put out.old out.new result }
{
    let at = model.topic_at(topic);
    let next = model_records::next_at(model.bytes, at);
    let head = lines::then_named(put, b"TOPI", &model.bytes[at + 4..next], style, out);
    let body = walk::then_tables(head, model, topic, table, style, row, out);
    lines::then_alone(body, b"ETOP", style, out)
}

// The lines of a topic, where it is delivered.
fn pass_topic(
    put: Put,
    model: &Records<'_>,
    topic: usize,
    table: &Table<'_>,
    style: LineStyle,
    row: usize,
    out: &mut [u8],
) -> RowsWritten
    requires placed { Placed model.now }
    requires undefined_value { style.undefined ≡ (model_at model.now.bytes.now).undefined }
    requires topic_lt_topics { topic < model.now.shape.topics }
    requires row_in_bounds { row ≤ length table.now.rows.now }
    ensures { let m = model_at model.now.bytes.now in
        let t = table.now in
        TopicTurn m t.text.now (content t) style topic row put out.old out.new result }
{
    if byte_at(table.marks, topic) == 0 {
        return RowsWritten {
            put: put_nothing(put),
            row,
        };
    }
    let all = then_topic(put, model, topic, table, style, row, out);
    let end = behind_topic(model, table, topic, row);
    RowsWritten { put: all, row: end }
}

// The lines of the topics.
fn then_topics(
    put: Put,
    model: &Records<'_>,
    table: &Table<'_>,
    style: LineStyle,
    out: &mut [u8],
) -> Put
    requires placed { Placed model.now }
    requires undefined_value { style.undefined ≡ (model_at model.now.bytes.now).undefined }
    ensures { let m = model_at model.now.bytes.now in
        let t = table.now in
        let lines = topic_lines m t.text.now (content t) 0 m.topics t.rows.now in
        Puts (cut_of style lines) put out.old out.new result }
{
    let mut all = put_nothing(put);
    let mut row = 0;
    for p in 0..model.shape.topics {
        let walked = pass_topic(all, model, p, table, style, row, out);
        all = walked.put;
        row = walked.row;
    }
    all
}

// SCNT, ////, MTID and the transfer's name, MODL and the model's name.
fn then_head(put: Put, model: &[u8], style: LineStyle, out: &mut [u8]) -> Put
    requires { Beginning (model_at model.now) model.now }
    ensures { let m = model_at model.now in
        let names = (MTID ∷ m.transfer ∷ []) ∷ (MODL ∷ m.name ∷ []) ∷ [] in
        let lines = (SCNT ∷ []) ∷ (slashes ∷ []) ∷ names in
        Puts (cut_of style lines) put out.old out.new result }
{
    let second = model_records::next_at(model, 0);
    let first = model_records::next_at(model, second);
    let begun = lines::then_alone(put, b"SCNT", style, out);
    let described = lines::then_alone(begun, b"////", style, out);
    let named = lines::then_named(described, b"MTID", &model[7..second], style, out);
    lines::then_named(named, b"MODL", &model[second + 4..first], style, out)
}

// The whole file.
pub fn put_file(model: &Records<'_>, table: &Table<'_>, style: LineStyle, out: &mut [u8]) -> Put
    requires placed { Placed model.now }
    requires undefined_value { style.undefined ≡ (model_at model.now.bytes.now).undefined }
    ensures { let m = model_at model.now.bytes.now in
        let t = table.now in
        let bytes = cut_lines style.mark style.width (lines_of m t.text.now (content t)) in
        Puts bytes (record { count = 0; last = 0 }) out.old out.new result }
{
    let start = Put { count: 0, last: 0 };
    let head = then_head(start, model.bytes, style, out);
    let body = then_topics(head, model, table, style, out);
    let tail = lines::then_alone(body, b"EMOD", style, out);
    lines::then_alone(tail, b"ENDE", style, out)
}
