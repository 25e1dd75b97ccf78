// A row: "table number, start and length of the identification in the unfolded text", then its pairs.
ghost use Rattle.std.specs.Prelude.{◌≡◌, ◌+◌, ◌<◌, T, pos, length, get_or};
ghost use Rattle.std.specs.Int.Signed.{non_neg};
ghost use Rattle.meaning.specs.Reading.{cell_at};

use base::parts::Part;

// The stretch of the text that the row's second and third cell say.
pub fn identification_at(cells: &[i64], row: usize) -> Part
    requires row_in_bounds { row + 2 < length cells.now }
    requires start_non_neg { T (non_neg (get_or cells.now (row + 1) (pos 0))) }
    requires size_non_neg { T (non_neg (get_or cells.now (row + 2) (pos 0))) }
    ensures start { result.start ≡ cell_at cells.now (row + 1) }
    ensures size { result.len ≡ cell_at cells.now (row + 2) }
{
    Part {
        start: cells[row + 1] as usize,
        len: cells[row + 2] as usize,
    }
}
