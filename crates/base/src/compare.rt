// Comparing slices of bytes.
ghost use Rattle.std.specs.Prelude.{◌≡◌};
ghost use Rattle.meaning.specs.Bytes.{same, prefix, ends, cont};

// "Equal means equal bytes".
pub fn same_bytes(a: &[u8], b: &[u8]) -> bool
    ensures { result ≡ same a.now b.now }
{
    a == b
}

pub fn begins_with(l: &[u8], word: &[u8]) -> bool
    ensures { result ≡ prefix word.now l.now }
{
    l.starts_with(word)
}

// Whether l begins with CONT and one space.
pub fn starts_cont(l: &[u8]) -> bool
    ensures { result ≡ prefix cont l.now }
{
    begins_with(l, b"CONT ")
}

pub fn ends_in(l: &[u8], b: u8) -> bool
    ensures { result ≡ ends b l.now }
{
    l.ends_with(&[b])
}
