// The call of writing: what is refused, the room's limit, and the room behind the bytes.
ghost use Rattle.std.specs.Prelude.{◌≡◌, ◌≤◌, length};
ghost use Rattle.meaning.specs.Check.{good};
ghost use Rattle.meaning.specs.Writing.{lent_of, content_of, lines_of};
ghost use Rattle.meaning.specs.Width.{cut_lines, write_checked, write};
ghost use Rattle.model_records.specs.Records.{model_at};
ghost use Rattle.model_records.specs.Places.{Placed};
ghost use Rattle.table.specs.Contents.{content};
ghost use Rattle.write.specs.Answers.{answer_of, came_to, unplaced, refusal_of, Fitting, Limited, settled_of};

use base::reasons::{Reason, Refused};
use model_check::check::check;
use model_records::places;
use model_records::places::Records;
use table::{Table, Used};
use write_file::file;
use write_judge::judging;
use write_lines::{LineStyle, Put};

// "Every result buffer is zero behind its used part"; 21 where the bytes are more than the room or the limit.
fn settle(put: Put, out: &mut [u8]) -> Result<usize, Reason>
    ensures { came_to (length out.old) (unplaced result) out.new ≡ settled_of put out.old }
{
    if out.len().min(16777216) < put.count {
        return Err(Reason::OutputTooSmall);
    }
    out[put.count..].fill(0);
    Ok(put.count)
}

// The file, within the room and the limit.
fn put_limited(model: &Records<'_>, table: &Table<'_>, style: LineStyle, out: &mut [u8]) -> Put
    requires placed { Placed model.now }
    requires undefined_value { style.undefined ≡ (model_at model.now.bytes.now).undefined }
    ensures { let t = table.now in
        let lines = lines_of (model_at model.now.bytes.now) t.text.now (content t) in
        Limited (cut_lines style.mark style.width lines) out.old out.new result }
{
    let room = out.len().min(16777216);
    file::put_file(model, table, style, &mut out[..room])
}

// "what lies behind the counts is not looked at": the file of what is used of the lent table.
fn put_used(model: &Records<'_>, table: &Table<'_>, used: Used, width: usize, out: &mut [u8]) -> Put
    requires placed { Placed model.now }
    requires le_width { (16 ≤ width) × (width ≤ 65535) }
    requires fitting { let t = table.now in
        Fitting (model_at model.now.bytes.now)
        (lent_of t.text.now t.marks.now t.rows.now t.cells.now t.points.now
        used.objects used.cells used.points) }
    ensures { let m = model_at model.now.bytes.now in
        let t = table.now in
        let lent = lent_of t.text.now t.marks.now t.rows.now t.cells.now t.points.now
        used.objects used.cells used.points in
        let lines = lines_of m t.text.now (content_of m lent) in
        Limited (cut_lines m.mark width lines) out.old out.new result }
{
    let style = LineStyle {
        undefined: model.shape.undefined,
        mark: model.shape.mark,
        width,
    };
    let marks = model.shape.topics + model.shape.tables;
    put_limited(model, &table.cut(marks, used), style, out)
}

// 20: a width below 16 or above 65,535; 19: no lines read as the lent table.
fn refusal_of(
    model: &Records<'_>,
    table: &Table<'_>,
    used: Used,
    width: usize,
    index: &mut [u64],
    seed: u64,
) -> Result<(), Reason>
    requires { Placed model.now }
    ensures { let t = table.now in
        let lent = lent_of t.text.now t.marks.now t.rows.now t.cells.now t.points.now
        used.objects used.cells used.points in
        result ≡ refusal_of (model_at model.now.bytes.now) lent width }
{
    if width < 16 || 65535 < width {
        return Err(Reason::WidthWrong);
    }
    if !judging::judge(model, table, used, index, seed) {
        return Err(Reason::NoSuchLines);
    }
    Ok(())
}

// The call under a good model.
fn write_under(
    model: &Records<'_>,
    table: &Table<'_>,
    used: Used,
    width: usize,
    out: &mut [u8],
    index: &mut [u64],
    seed: u64,
) -> Result<usize, Reason>
    requires { Placed model.now }
    ensures { let t = table.now in
        let lent = lent_of t.text.now t.marks.now t.rows.now t.cells.now t.points.now
        used.objects used.cells used.points in
        let room = length out.old in
        came_to room (unplaced result) out.new
        ≡ write_checked lent width room (good (model_at model.now.bytes.now)) }
{
    refusal_of(model, table, used, width, index, seed)?;
    let put = put_used(model, table, used, width, out);
    settle(put, out)
}

// The call, but for the rooms that a refusal leaves.
pub(crate) fn write_within(
    model: &[u8],
    table: &Table<'_>,
    used: Used,
    width: usize,
    out: &mut [u8],
    index: &mut [u64],
    seed: u64,
) -> Result<usize, Refused>
    ensures { let t = table.now in
        let lent = lent_of t.text.now t.marks.now t.rows.now t.cells.now t.points.now
        used.objects used.cells used.points in
        let room = length out.old in
        came_to room result out.new ≡ write model.now lent width room }
{
    check(model)?;
    let records = places::place_records(model);
    write_under(&records, table, used, width, out, index, seed).map_err(|reason| Refused {
        reason,
        first: 0,
        second: 0,
    })
}
