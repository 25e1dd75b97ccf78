// Cells, and a cell's size: the number that it holds, without its sign.
ghost use Rattle.std.specs.Prelude.{◌≡◌, pos, nat_abs, get_or, drop};
ghost use Rattle.meaning.specs.Reading.{cell_at};

pub fn size_of(v: i64) -> usize
    ensures { result ≡ nat_abs v }
{
    v.unsigned_abs() as usize
}

// The size of the cell at an index, 0 behind the end.
pub fn size_at(cells: &[i64], cell: usize) -> usize
    ensures { result ≡ cell_at cells.now cell }
{
    cells.get(cell).map_or(0, |v| size_of(*v))
}

// The cell so many cells behind another.
pub fn cell_behind(cells: &[i64], at: usize, by: usize) -> i64
    ensures { result ≡ get_or (drop at cells.now) by (pos 0) }
{
    cells[at.min(cells.len())..].get(by).copied().unwrap_or(0)
}

// Its size.
pub fn size_behind(cells: &[i64], at: usize, by: usize) -> usize
    ensures { result ≡ nat_abs (get_or (drop at cells.now) by (pos 0)) }
{
    size_of(cell_behind(cells, at, by))
}
