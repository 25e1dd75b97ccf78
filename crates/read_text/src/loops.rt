// The lines of an unfolded text in order.
ghost use Rattle.std.specs.Prelude.{◌≡◌, ◌<◌, ◌^◌, length, replicate};
ghost use Rattle.meaning.specs.Reading.{start_of, Rooms};
ghost use Rattle.meaning.specs.Lines.{read_lines};
ghost use Rattle.model_records.specs.Records.{model_at};
ghost use Rattle.read_text.specs.Text.{lines_of};
ghost use Rattle.read_state.specs.Buffers.{SameBuffers};
ghost use Rattle.read_step.specs.Steps.{Prepared};
ghost use Rattle.read_text.specs.Outcomes.{EndsAs, RanTo};

use crate::ends;
use base::reasons::{Reason, Refused};
use model_records::places::Records;
use read_state::{Buffers, Due, FrameDue, Line, State};

// 7 where a line is still due behind the last one.
fn at_end(state: State, line: usize) -> Result<State, Refused>
    ensures { EndsAs state line result }
{
    match state.due {
        Due::Frame(FrameDue::Nothing) => Ok(state),
        _ => Err(Refused {
            reason: Reason::OtherCode,
            first: line,
            second: 1,
        }),
    }
}

// Every line, from the first on, into buffers whose marks and index are zeros.
pub(crate) fn read_lines(
    model: &Records<'_>,
    text: &[u8],
    buffers: &mut Buffers<'_>,
) -> Result<State, Refused>
    requires prepared { Prepared model.now buffers.old.marks.now }
    requires text_len_bound { length text.now < 2 ^ 62 }
    requires marks_value { let u = buffers.old in
        (u.marks.now ≡ replicate (length u.marks.now) 0) × (u.index.now ≡ replicate (length u.index.now) 0) }
    ensures ran { let m = model_at model.now.bytes.now in let t = text.now in
        let u = buffers.old in let v = buffers.new in
        (rooms : Rooms) → rooms.rows ≡ length u.rows.now → rooms.cells ≡ length u.cells.now
        → rooms.points ≡ length u.points.now
        → RanTo model.now.bytes.now t u.seed v.marks.now v.rows.now v.cells.now v.points.now v.index.now
        (read_lines m rooms t (start_of m) (lines_of t)) result }
    ensures same { SameBuffers buffers.old buffers.new }
{
    let mut s = State {
        due: Due::Frame(FrameDue::Opening),
        rows: 0,
        cells: 0,
        points: 0,
    };
    // By hand: a split of the text hands out slices, and the table keeps places in it.
    let mut number = 1;
    let mut at = 0;
    while at < text.len() {
        let end = ends::end_of_line(text, at);
        let line = Line { text, at, end };
        let step = read_step::line::step_line(model, &line, buffers, s);
        s = step.map_err(|refusal| Refused {
            reason: refusal.reason,
            first: number,
            second: refusal.field,
        })?;
        number += 1;
        at = end + 1;
    }
    at_end(s, number)
}
