// Kinds of bytes, and whether each byte of a slice is of a kind.
ghost use Rattle.std.specs.Prelude.{◌≡◌};
ghost use Rattle.meaning.specs.Bytes.{permitted, separator, digit, letter, text_byte, every};

// "Permitted content: 09, 20 to 7E, A0 to FF hex"
pub fn is_permitted(b: u8) -> bool
    ensures { result ≡ permitted b }
{
    match b {
        0x09 | 0x20..=0x7e | 0xa0..=0xff => true,
        _ => false,
    }
}

// Space or tab.
pub(crate) fn is_separator(b: u8) -> bool
    ensures { result ≡ separator b }
{
    match b {
        0x20 | 0x09 => true,
        _ => false,
    }
}

pub fn is_digit(b: u8) -> bool
    ensures { result ≡ digit b }
{
    match b {
        b'0'..=b'9' => true,
        _ => false,
    }
}

pub fn is_letter(b: u8) -> bool
    ensures { result ≡ letter b }
{
    match b {
        b'A'..=b'Z' | b'a'..=b'z' => true,
        _ => false,
    }
}

// "bytes 21 to 7E, C0 to FF without D7 and F7"
fn is_text_byte(b: u8) -> bool
    ensures { result ≡ text_byte b }
{
    match b {
        0x21..=0x7e | 0xc0..=0xd6 | 0xd8..=0xf6 | 0xf8..=0xff => true,
        _ => false,
    }
}

// The same as `is_permitted` without a branch: a loop over it is made of vector operations.
fn tests_permitted(b: u8) -> bool
    ensures { result ≡ permitted b }
{
    (b == 0x09) | (((0x20 <= b) & (b <= 0x7e)) | (0xa0 <= b))
}

// No early end, for the same reason.
pub fn every_permitted(l: &[u8]) -> bool
    ensures { result ≡ every permitted l.now }
{
    let mut all = true;
    for b in l {
        all &= tests_permitted(*b);
    }
    all
}

pub fn every_text_byte(l: &[u8]) -> bool
    ensures { result ≡ every text_byte l.now }
{
    l.iter().all(|b| is_text_byte(*b))
}
