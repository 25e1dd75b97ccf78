//! The writer: the lines of a lent table, put into a lent room.
#![tactic(auto)]

ghost use Rattle.std.specs.Prelude.{◌≡◌, length, replicate};
ghost use Rattle.meaning.specs.Width as meaning;
ghost use Rattle.meaning.specs.Writing.{lent_of};
ghost use Rattle.write.specs.Answers.{answer_of};

use base::reasons::Refused;
use table::{Table, Used};

pub mod writing;

// Writes a lent table under a model, at a width, into a room, and counts the bytes; "In writing: 2, 20, 19, 21", where
// 2 has the byte of the model's first bad record. The index is working room and comes back as zeros; "All result
// buffers are zeroed by every refusal".
pub fn write(
    model: &[u8],
    text: &[u8],
    marks: &[u8],
    rows: &[u64],
    cells: &[i64],
    points: &[i64],
    objects: usize,
    cells_used: usize,
    points_used: usize,
    width: usize,
    out: &mut [u8],
    index: &mut [u64],
    seed: u64,
) -> Result<usize, Refused>
    ensures answer { let table =
        lent_of text.now marks.now rows.now cells.now points.now objects cells_used points_used in
        let meant = meaning.write model.now table width (length out.old) in
        answer_of result ≡ meant.answer }
    ensures output { let table =
        lent_of text.now marks.now rows.now cells.now points.now objects cells_used points_used in
        let meant = meaning.write model.now table width (length out.old) in
        out.new ≡ meant.output }
    ensures index { index.new ≡ replicate (length index.old) 0 }
{
    let table = Table {
        text,
        marks,
        rows,
        cells,
        points,
    };
    let used = Used {
        objects,
        cells: cells_used,
        points: points_used,
    };
    let answer = writing::write_within(model, &table, used, width, out, index, seed);
    index.fill(0);
    if answer.is_err() {
        out.fill(0);
    }
    answer
}
