// What is left in the lent buffers.
ghost use Rattle.std.specs.Prelude.{◌≡◌, length, replicate};
ghost use Rattle.read_text.specs.Outcomes.{Fits, Finished, Zeroed};

use table::Used;

// "All result buffers are zeroed by every refusal".
fn clear_all(
    text: &mut [u8],
    marks: &mut [u8],
    rows: &mut [u64],
    cells: &mut [i64],
    points: &mut [i64],
)
    ensures { Zeroed
        text.old marks.old rows.old cells.old points.old
        text.new marks.new rows.new cells.new points.new }
{
    text.fill(0);
    marks.fill(0);
    rows.fill(0);
    cells.fill(0);
    points.fill(0);
}

// "Every result buffer is zero behind its used part", and the index is all zeros; a refusal may be told by anything.
pub fn finish<E: Copy>(
    answer: Result<Used, E>,
    text: &mut [u8],
    marks: &mut [u8],
    rows: &mut [u64],
    cells: &mut [i64],
    points: &mut [i64],
    index: &mut [u64],
)
    requires { Fits rows.old cells.old points.old answer }
    ensures finished { Finished
        text.old marks.old rows.old cells.old points.old
        text.new marks.new rows.new cells.new points.new answer }
    ensures index_after { index.new ≡ replicate (length index.old) 0 }
{
    table_index::clear(index);
    match answer {
        Ok(used) => {
            rows[used.objects..].fill(0);
            cells[used.cells..].fill(0);
            points[4 * used.points..].fill(0);
        }
        Err(_) => clear_all(text, marks, rows, cells, points),
    }
}
