// Points: "four cells: 0 STPT, 1 LIPT, 2 ARCP; east; north; height or 0".
ghost use Rattle.std.specs.Prelude.{◌≡◌, ◌+◌, ◌≤◌, length, take};
ghost use Rattle.std.proofs.lemmas.List.Edits.{sets};
ghost use Rattle.meaning.specs.Row.{point_cells};

// A point of two or three values, from a cell on.
pub fn put_point(points: &mut [i64], at: usize, kind: u8, values: [i64; 3], count: usize)
    requires le_count { (2 ≤ count) × (count ≤ 3) × (length values ≡ 3) }
    requires at_in_bounds { at + 4 ≤ length points.old }
    ensures { points.new ≡ sets points.old at (point_cells kind (take count values)) }
{
    let height = if count < 3 { 0 } else { values[2] };
    points[at..at + 4].copy_from_slice(&[i64::from(kind), values[0], values[1], height]);
}
