//! Reading exported to C, on slices, answering one u64: the answer's first number plus 256 times its second.
#![tactic(auto)]

ghost use Rattle.std.specs.Prelude.{◌≡◌, length, replicate};
ghost use Rattle.meaning.specs.Answer.{code_for_c, numbers_in};
ghost use Rattle.meaning.specs.Reading.{rooms_of};
ghost use Rattle.meaning.specs.Table as table;

mod numbers;

// 0 and the number of objects, or a refusal's number and its first place number; `answer` gets the four numbers, as
// many as it has room for. The table stands in the lent buffers, with zeros behind; a refusal leaves nothing but zeros.
// The index is only working room, and zero again.
#[unsafe(no_mangle)]
pub extern "C" fn vendorfinch_read(
    model: &[u8],
    file: &[u8],
    text: &mut [u8],
    marks: &mut [u8],
    rows: &mut [u64],
    cells: &mut [i64],
    points: &mut [i64],
    index: &mut [u64],
    seed: u64,
    answer: &mut [u64],
) -> u64
    ensures code { let rooms = rooms_of text.old marks.old rows.old cells.old points.old in
        let meant = table.read model.now file.now rooms in result ≡ code_for_c meant.answer }
    ensures answer { let rooms = rooms_of text.old marks.old rows.old cells.old points.old in
        let meant = table.read model.now file.now rooms in
        answer.new ≡ numbers_in (length answer.old) meant.answer }
    ensures text { let rooms = rooms_of text.old marks.old rows.old cells.old points.old in
        let meant = table.read model.now file.now rooms in text.new ≡ meant.text }
    ensures marks { let rooms = rooms_of text.old marks.old rows.old cells.old points.old in
        let meant = table.read model.now file.now rooms in marks.new ≡ meant.marks }
    ensures rows { let rooms = rooms_of text.old marks.old rows.old cells.old points.old in
        let meant = table.read model.now file.now rooms in rows.new ≡ meant.rows }
    ensures cells { let rooms = rooms_of text.old marks.old rows.old cells.old points.old in
        let meant = table.read model.now file.now rooms in cells.new ≡ meant.cells }
    ensures points { let rooms = rooms_of text.old marks.old rows.old cells.old points.old in
        let meant = table.read model.now file.now rooms in
        points.new ≡ meant.points }
    ensures index { index.new ≡ replicate (length index.old) 0 }
{
    let read = read::read(model, file, text, marks, rows, cells, points, index, seed);
    numbers::store(read, answer);
    numbers::code_of_read(read)
}
