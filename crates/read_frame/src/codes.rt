// The code of a line.
ghost use Rattle.std.specs.Prelude.{◌≡◌};
ghost use Rattle.read_frame.specs.Codes.{codes, place_or_0, code_number, word_in};
ghost use Rattle.read_frame.specs.Heads.{HeadOf};

use base::fields;
use model_records::numbers;

// The codes of lines, in the order of specs/Codes.antt.
#[derive(Clone, Copy, Debug, PartialEq, Eq)]
pub enum Code {
    Scnt,
    Slashes,
    Mtid,
    Motr,
    Modl,
    Topi,
    Tabl,
    Obje,
    Stpt,
    Lipt,
    Arcp,
    Elin,
    Etab,
    Etop,
    Emod,
    Ende,
}

// The code that is these four bytes, as a little-endian number.
fn code_of_word(w: u32) -> Option<Code>
    ensures { place_or_0 result ≡ word_in 1 codes w }
{
    match w {
        0x544e4353 => Some(Code::Scnt),
        0x2f2f2f2f => Some(Code::Slashes),
        0x4449544d => Some(Code::Mtid),
        0x52544f4d => Some(Code::Motr),
        0x4c444f4d => Some(Code::Modl),
        0x49504f54 => Some(Code::Topi),
        0x4c424154 => Some(Code::Tabl),
        0x454a424f => Some(Code::Obje),
        0x54505453 => Some(Code::Stpt),
        0x5450494c => Some(Code::Lipt),
        0x50435241 => Some(Code::Arcp),
        0x4e494c45 => Some(Code::Elin),
        0x42415445 => Some(Code::Etab),
        0x504f5445 => Some(Code::Etop),
        0x444f4d45 => Some(Code::Emod),
        0x45444e45 => Some(Code::Ende),
        _ => None,
    }
}

// The code that a field is.
fn read_code(field: &[u8]) -> Option<Code>
    ensures { place_or_0 result ≡ code_number field.now }
{
    if field.len() != 4 {
        return None;
    }
    code_of_word(numbers::u32_at(field, 0))
}

// A line's code, if its first field is one, and where the rest of the line begins.
#[derive(Clone, Copy)]
pub struct Head {
    pub code: Option<Code>,
    pub behind: usize,
}

pub fn head_of(line: &[u8]) -> Head
    ensures { HeadOf line.now result }
{
    let Some(first) = fields::next_field(line) else {
        return Head {
            code: None,
            behind: line.len(),
        };
    };
    let behind = first.start + first.len;
    Head {
        code: read_code(&line[first.start..behind]),
        behind,
    }
}
