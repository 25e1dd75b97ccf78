// The lines of an unfolded text.
ghost use Rattle.std.specs.Prelude.{◌≡◌, ◌+◌, ◌≤◌, length, drop};
ghost use Rattle.read_text.specs.Text.{line_end};

// Where the line that begins at `at` ends.
pub(crate) fn end_of_line(text: &[u8], at: usize) -> usize
    requires { at ≤ length text.now }
    ensures end { result ≡ at + line_end (drop at text.now) }
    ensures within { result ≤ length text.now }
{
    for i in at..text.len() {
        if text[i] == 10 {
            return i;
        }
    }
    text.len()
}
