// Lines of a code, or of a code and a name.
ghost use Rattle.std.specs.Prelude.{[], ◌∷◌, ◌≤◌, length};
ghost use Rattle.write_lines.specs.Puts.{Puts};
ghost use Rattle.write_file.specs.Styles.{cut_of};

use write_lines::cuts::end_line;
use write_lines::fields::{put_bytes, put_field};
use write_lines::{LineStyle, Put};

// A line of a code, behind what was put.
pub(crate) fn then_alone(put: Put, code: &[u8], style: LineStyle, out: &mut [u8]) -> Put
    requires { 1 ≤ length code.now }
    ensures { let lines = (code.now ∷ []) ∷ [] in
        Puts (cut_of style lines) put out.old out.new result }
{
    let line = put_bytes(out, put, code);
    end_line(out, put.count, line, style)
}

// A line of a code and a name, behind what was put.
pub(crate) fn then_named(
    put: Put,
    code: &[u8],
    name: &[u8],
    style: LineStyle,
    out: &mut [u8],
) -> Put
    ensures { let lines = (code.now ∷ name.now ∷ []) ∷ [] in
        Puts (cut_of style lines) put out.old out.new result }
{
    let begun = put_bytes(out, put, code);
    let line = put_field(out, begun, name);
    end_line(out, put.count, line, style)
}
