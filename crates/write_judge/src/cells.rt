// Cells: is one a number, and does a stretch of the text hold an identification or a text?
ghost use Rattle.std.specs.Prelude.{◌≡◌, not, [], ◌∷◌, pos};
ghost use Rattle.std.specs.Int.Signed.{lt_z};
ghost use Rattle.meaning.specs.Bytes.{all_of, text_byte, every, same};
ghost use Rattle.meaning.specs.Judge.{cell_is, judge_stretch};

// Is a cell below a number?
pub(crate) fn is_below(a: i64, n: usize) -> bool
    ensures { result ≡ lt_z a (pos n) }
{
    a < 0 || (a as usize) < n
}

// Is a cell this number?
pub(crate) fn is_number(a: i64, n: usize) -> bool
    ensures { result ≡ cell_is a n }
{
    !is_below(a, n) && table::cells::size_of(a) == n
}

// Bytes of an identification or a text, and never "one or two undefined bytes".
fn judge_bytes(undefined: u8, bytes: &[u8]) -> bool
    ensures { let b = bytes.now in
        result ≡ all_of (every text_byte b
        ∷ not (same b (undefined ∷ [])) ∷ not (same b (undefined ∷ undefined ∷ [])) ∷ []) }
{
    value_read::stretches::is_identification(bytes)
        & !value_read::stretches::is_undefined(undefined, bytes)
        & !value_read::stretches::is_undefined_twice(undefined, bytes)
}

// "a stretch outside the lent text is 19": so many bytes of the text from a start on.
pub(crate) fn judge_stretch(text: &[u8], undefined: u8, start: i64, size: usize) -> bool
    ensures { result ≡ judge_stretch undefined text.now start size }
{
    if is_below(start, 0) {
        return false;
    }
    let from = table::cells::size_of(start);
    if text.len() < from {
        return false;
    }
    if text.len() - from < size {
        return false;
    }
    let end = from + size;
    judge_bytes(undefined, &text[from..end])
}
