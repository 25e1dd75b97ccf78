// Stretches of the text, as cells name them.
ghost use Rattle.table.specs.Stretches.{Cut};

use base::parts::Part;

// A stretch, cut at the end of a text of so many bytes.
pub fn cut_stretch(size: usize, start: usize, len: usize) -> Part
    ensures { Cut size start len result.start result.len }
{
    let from = start.min(size);
    Part {
        start: from,
        len: len.min(size - from),
    }
}
