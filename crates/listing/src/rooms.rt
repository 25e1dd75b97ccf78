// The program's larger rooms. A function has each, so that its length is proved once, by a law.
ghost use Rattle.std.specs.Prelude.{◌≡◌, length};

pub(crate) fn text() -> [u8; 65536]
    ensures { 65536 ≡ length result }
{
    [0; 65536]
}

// A line of all cells: 22 bytes for each, and one more.
pub(crate) fn line() -> [u8; 180225]
    ensures { 180225 ≡ length result }
{
    [0; 180225]
}
