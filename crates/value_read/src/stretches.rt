// Identifications, references and texts, which are stretches of the text, and undefined fields.
ghost use Rattle.std.specs.Prelude.{◌≡◌, ℕ, ◌+◌, ◌<◌, ◌^◌, length};
ghost use Rattle.meaning.specs.Value.{text_of, is_identification, same_identification, reference_of, is_undefined};
ghost use Rattle.meaning.specs.Value.{is_undefined_twice};
ghost use Rattle.meaning.specs.Value.{stretch_of};
ghost use Rattle.value_read.specs.Meant.{value_meant, field_of};

use base::reasons::Reason;

// "Text: 1 plus length, start"
fn stretch(field: &[u8], start: usize) -> (i64, i64)
    requires { start + (1 + length field.now) < 2 ^ 63 }
    ensures { value_meant (Ok result) ≡ stretch_of (field_of start field.now) }
{
    ((1 + field.len()) as i64, start as i64)
}

pub fn read_text(field: &[u8], start: usize, longest: usize) -> Result<(i64, i64), Reason>
    requires { start + (1 + length field.now) < 2 ^ 63 }
    ensures { value_meant result ≡ text_of longest (field_of start field.now) }
{
    if !base::kinds::every_text_byte(field) {
        return Err(Reason::WrongShape);
    }
    if longest < field.len() {
        return Err(Reason::OutsideDomain);
    }
    Ok(stretch(field, start))
}

// The shape of an identification.
pub fn is_identification(field: &[u8]) -> bool
    ensures { result ≡ is_identification field.now }
{
    base::kinds::every_text_byte(field)
}

// "Equal means equal bytes": every comparison of identifications goes through here. Lengths first, then bytes from the
// last to the first, since identifications with one long prefix differ mostly in their last bytes; two bytes a turn, as
// a search without an index does little else.
pub fn same_identification(a: &[u8], b: &[u8]) -> bool
    ensures { result ≡ same_identification a.now b.now }
{
    if a.len() != b.len() {
        return false;
    }
    let mut i = a.len();
    while 1 < i {
        if a[i - 1] != b[i - 1] {
            return false;
        }
        i -= 2;
        if a[i] != b[i] {
            return false;
        }
    }
    if i == 0 {
        return true;
    }
    a[0] == b[0]
}

// A reference's stretch: the object's number comes when all lines are read.
pub fn read_reference(field: &[u8], start: usize) -> Result<(i64, i64), Reason>
    requires { start + (1 + length field.now) < 2 ^ 63 }
    ensures { value_meant result ≡ reference_of (field_of start field.now) }
{
    if is_identification(field) {
        Ok(stretch(field, start))
    } else {
        Err(Reason::WrongShape)
    }
}

// "A field that is the undefined byte alone is undefined"
pub fn is_undefined(undefined: u8, field: &[u8]) -> bool
    ensures { (start : ℕ) → result ≡ is_undefined undefined (field_of start field.now) }
{
    field == [undefined].as_slice()
}

// "Two undefined bytes as a field"
pub fn is_undefined_twice(undefined: u8, field: &[u8]) -> bool
    ensures { (start : ℕ) → result ≡ is_undefined_twice undefined (field_of start field.now) }
{
    field == [undefined, undefined].as_slice()
}
