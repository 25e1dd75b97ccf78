// A line of cells as bytes: numbers with one space between them.
ghost use Rattle.std.specs.Prelude.{◌≡◌, ◌++◌, ◌∷◌, [], ◌+◌, ◌-◌, ◌*◌, ◌≤◌, ◌<◌, ltb, length, take, drop, get_or};
ghost use Rattle.meaning.specs.Bytes.{choose};
ghost use Rattle.meaning.specs.Digits.{number_bytes};
ghost use Rattle.meaning.specs.Listing.{print_row};

// A cell and the byte behind it, behind the first n bytes.
fn put_cell(v: i64, behind: u8, out: &mut [u8], n: usize) -> usize
    requires { n + 22 ≤ length out.old }
    ensures few { result ≤ n + 22 }
    ensures bytes { take result out.new ≡ take n out.old
        ++ (number_bytes 0 v ++ (behind ∷ [])) }
{
    let size = value_write::put_enumeration(v, &mut out[n..]);
    let end = n + size;
    out[end] = behind;
    end + 1
}

// A space, and LF behind the last.
fn behind(i: usize, count: usize) -> u8
    requires { i < count }
    ensures { result ≡ choose (ltb (i + 1) count) 0x20 0x0a }
{
    if i + 1 < count { b' ' } else { b'\n' }
}

// A line of cells; out has room for 22 bytes each.
fn put_row(values: &[i64], out: &mut [u8]) -> usize
    requires { 22 * length values.now < length out.old }
    ensures few { result ≤ length out.new }
    ensures bytes { take result out.new ≡ print_row values.now }
{
    if values.is_empty() {
        out[0] = b'\n';
        return 1;
    }
    put_values(values, out)
}

fn put_values(values: &[i64], out: &mut [u8]) -> usize
    requires values_nonzero { 0 < length values.now }
    requires values_in_bounds { 22 * length values.now < length out.old }
    ensures few { result ≤ length out.new }
    ensures bytes { take result out.new ≡ print_row values.now }
{
    let mut n = 0;
    for (i, v) in values.iter().enumerate() {
        n = put_cell(*v, behind(i, values.len()), out, n);
    }
    n
}

// A line of the cells from one to before another.
pub fn put_part(cells: &[i64], from: usize, to: usize, out: &mut [u8]) -> usize
    requires { 22 * length cells.now < length out.old }
    ensures few { result ≤ length out.new }
    ensures bytes { take result out.new ≡ print_row (take (to - from) (drop from cells.now)) }
{
    let end = to.min(cells.len());
    let start = from.min(end);
    put_row(&cells[start..end], out)
}

// The row's first cell, or the end of all behind the last row.
pub fn row_end(rows: &[u64], i: usize, all: usize) -> usize
    ensures { result ≡ choose (ltb i (length rows.now)) (get_or rows.now i 0) all }
{
    match rows.get(i) {
        Some(row) => *row as usize,
        None => all,
    }
}
