// Marks: "one byte per topic, then per table, 1 where delivered".
ghost use Rattle.std.specs.Prelude.{◌≡◌, false, ◌+◌, ◌<◌, length};
ghost use Rattle.meaning.specs.Bytes.{choose, every};
ghost use Rattle.meaning.specs.Judge.{is_mark, judge_tables};
ghost use Rattle.model_records.specs.Records.{model_at};
ghost use Rattle.table.specs.Contents.{content};
ghost use Rattle.write_judge.specs.Marks.{Judging, tables_from, is_fine};

use model_records::places::Records;
use table::Table;

// Every mark is 0 or 1.
pub(crate) fn are_marks(marks: &[u8]) -> bool
    ensures { result ≡ every is_mark marks.now }
{
    marks.iter().all(|mark| *mark <= 1)
}

// "topics and optional tables may be left out": a table is delivered in a topic that is, and is left out with its topic
// or where it is optional.
fn is_fine(delivered: bool, in_topic: bool, optional: bool) -> bool
    ensures { result ≡ is_fine delivered in_topic optional }
{
    (!delivered | in_topic) & (delivered | !in_topic | optional)
}

// The mark of a table of the model, by its number, beside that of its topic.
fn judge_delivery(model: &Records<'_>, table: &Table<'_>, number: usize) -> bool
    requires judging { Judging model.now table.now }
    requires number_lt_tables { number < model.now.shape.tables }
    ensures { let m = model_at model.now.bytes.now in
        let from = tables_from model.now.shape.topics table.now.marks.now m.tables in
        from number ≡ choose result (from (number + 1)) false }
{
    is_fine(
        table.marks[model.shape.topics + number] != 0,
        table.marks[model.topic_of(number)] != 0,
        model.is_optional(number),
    )
}

// The marks of all tables.
pub(crate) fn judge_tables(model: &Records<'_>, table: &Table<'_>) -> bool
    requires judging { Judging model.now table.now }
    ensures { let m = model_at model.now.bytes.now in
        result ≡ judge_tables (length m.topics) (content table.now) 0 m.tables }
{
    for number in 0..model.shape.tables {
        if !judge_delivery(model, table, number) {
            return false;
        }
    }
    true
}
