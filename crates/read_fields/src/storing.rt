// Cells stored into a lent part. What has no room is left out: whether there is room is judged behind the fields.
ghost use Rattle.std.specs.Prelude.{◌≡◌, [], ◌∷◌, ◌+◌, ◌*◌, ◌<◌, ◌^◌};
ghost use Rattle.std.proofs.lemmas.List.Edits.{sets};
ghost use Rattle.read_fields.specs.RowProgress.{zeros};

use base::rooms;

pub(crate) fn put_pair(cells: &mut [i64], at: usize, a: i64, b: i64)
    requires { at + 2 < 2 ^ 64 }
    ensures { cells.new ≡ sets cells.old at (a ∷ b ∷ []) }
{
    rooms::put(cells, at, a);
    rooms::put(cells, at + 1, b);
}

// "Undefined is 0 0": so many undefined pairs.
pub fn put_zeros(cells: &mut [i64], at: usize, pairs: usize)
    requires { at + 2 * pairs < 2 ^ 64 }
    ensures { cells.new ≡ sets cells.old at (zeros pairs) }
{
    for i in 0..pairs {
        put_pair(cells, at + 2 * i, 0, 0);
    }
}
