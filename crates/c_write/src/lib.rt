//! Writing exported to C, on slices, answering one u64: the answer's first number plus 256 times its second.
#![tactic(auto)]

ghost use Rattle.std.specs.Prelude.{◌≡◌, length, replicate};
ghost use Rattle.meaning.specs.Answer.{code_for_c};
ghost use Rattle.meaning.specs.Width as writes;
ghost use Rattle.meaning.specs.Writing.{lent_of};
ghost use Rattle.meaning.specs.Answer.{numbers_in};

mod numbers;

// 0 and the number of bytes written, or a refusal's number and the byte of a bad model's record; `answer` gets the four
// numbers, as many as it has room for. The lines of the table stand in `out`, with zeros behind; a refusal leaves
// nothing but zeros. The index is only working room, and zero again.
#[unsafe(no_mangle)]
pub extern "C" fn vendorfinch_write(
    model: &[u8],
    text: &[u8],
    marks: &[u8],
    rows: &[u64],
    cells: &[i64],
    points: &[i64],
    objects: usize,
    cells_used: usize,
    points_used: usize,
    width: usize,
    out: &mut [u8],
    index: &mut [u64],
    seed: u64,
    answer: &mut [u64],
) -> u64
    ensures code { let table =
        lent_of text.now marks.now rows.now cells.now points.now objects cells_used points_used in
        let meant = writes.write model.now table width (length out.old) in
        result ≡ code_for_c meant.answer }
    ensures output { let table =
        lent_of text.now marks.now rows.now cells.now points.now objects cells_used points_used in
        let meant = writes.write model.now table width (length out.old) in
        out.new ≡ meant.output }
    ensures index { index.new ≡ replicate (length index.old) 0 }
    ensures answer { let table =
        lent_of text.now marks.now rows.now cells.now points.now objects cells_used points_used in
        let meant = writes.write model.now table width (length out.old) in
        answer.new ≡ numbers_in (length answer.old) meant.answer }
{
    let written = write::write(
        model,
        text,
        marks,
        rows,
        cells,
        points,
        objects,
        cells_used,
        points_used,
        width,
        out,
        index,
        seed,
    );
    numbers::store_written(written, answer);
    numbers::code_of_write(written)
}
