//! The table: its cells, its rows and the stretches of the text that they name.
#![tactic(auto)]

ghost use Rattle.std.specs.Prelude.{◌≡◌, ◌*◌, ◌≤◌, length, take};

pub mod cells;
pub mod points;
pub mod rows;
pub mod stretches;

// How much of a lent table is used: so many objects, cells and points.
#[derive(Clone, Copy)]
pub struct Used {
    pub objects: usize,
    pub cells: usize,
    pub points: usize,
}

// A table in lent buffers, and the text in which its stretches lie.
#[derive(Clone, Copy)]
pub struct Table<'a> {
    pub text: &'a [u8],
    pub marks: &'a [u8],
    pub rows: &'a [u64],
    pub cells: &'a [i64],
    pub points: &'a [i64],
}

impl<'a> Table<'a> {
    // What is used of it: so many marks, objects, cells and points.
    pub fn cut(&self, marks: usize, used: Used) -> Table<'a>
        requires marks_in_bounds { marks ≤ length self.now.marks.now }
        requires objects_in_bounds { used.objects ≤ length self.now.rows.now }
        requires cells_in_bounds { used.cells ≤ length self.now.cells.now }
        requires points_in_bounds { 4 * used.points ≤ length self.now.points.now }
        ensures text { result.text.now ≡ self.now.text.now }
        ensures marks { result.marks.now ≡ take marks self.now.marks.now }
        ensures rows { result.rows.now ≡ take used.objects self.now.rows.now }
        ensures cells { result.cells.now ≡ take used.cells self.now.cells.now }
        ensures points { result.points.now ≡ take (4 * used.points) self.now.points.now }
    {
        Table {
            text: self.text,
            marks: &self.marks[..marks],
            rows: &self.rows[..used.objects],
            cells: &self.cells[..used.cells],
            points: &self.points[..4 * used.points],
        }
    }
}
