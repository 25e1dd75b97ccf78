// Lines of a line attribute that are a code alone: an undefined line, and the end of a line.
ghost use Rattle.std.specs.Prelude.{◌≡◌, List, ℕ, ◌+◌, ◌*◌, ◌-◌, ◌≤◌, ◌<◌, ◌^◌, ℤ, pos, length, drop, set};
ghost use Rattle.meaning.specs.Field.{Field, fields_of};
ghost use Rattle.meaning.specs.Reading.{Rooms, undefined_line, ended};
ghost use Rattle.meaning.specs.Lines.{attribute_line};
ghost use Rattle.model_records.specs.declared.attributes.LineAttribute.{LineAttribute};
ghost use Rattle.model_records.specs.Records.{model_at};
ghost use Rattle.read_state.specs.Meaning.{line_code_of};
ghost use Rattle.read_polylines.specs.Codes.{code_of};
ghost use Rattle.read_polylines.specs.Ways.{way_of, LineReady, BehindLine, LineDoes};

use base::reasons::{Reason, Refusal};
use read_frame::codes::Code;
use read_state::{LineCode, OpenLine, State};

// The code of a line, by the code that its first field is. Neither type is of this crate, so it is no `From`.
pub(crate) fn name_code(code: Option<Code>) -> LineCode
    ensures { line_code_of result ≡ code_of code }
{
    match code {
        Some(Code::Stpt) => LineCode::Stpt,
        Some(Code::Lipt) => LineCode::Lipt,
        Some(Code::Arcp) => LineCode::Arcp,
        Some(Code::Elin) => LineCode::Elin,
        _ => LineCode::Other,
    }
}

// The state behind the last line of the line attribute under way: the next one has this first point.
fn behind_line(model: &[u8], polyline: OpenLine, state: State, first: usize) -> State
    requires { LineReady model.now polyline state }
    ensures { BehindLine model.now polyline state first result }
{
    let next = model_records::next_at(model, polyline.at);
    let due = crate::due_lines(model, polyline.table, next, polyline.cell + 2, first);
    State { due, ..state }
}

// "ELIN alone is an undefined line".
pub(crate) fn undefined_line(
    model: &[u8],
    optional: bool,
    rest: &[u8],
    polyline: OpenLine,
    state: State,
) -> Result<State, Refusal>
    requires { LineReady model.now polyline state }
    ensures { (a : LineAttribute) (rooms : Rooms) (text : List ℕ) (fs : List Field) (start : ℕ)
        (cells points : List ℤ) → let b = model.now in
        a.optional ≡ optional → drop 1 fs ≡ fields_of start rest.now
        → LineDoes b polyline state
        (λ c. attribute_line (model_at b) rooms text (way_of b a polyline) fs c undefined_line)
        cells points cells points result }
{
    if !optional {
        return Err(Refusal {
            reason: Reason::UndefinedField,
            field: 1,
        });
    }
    if !read_frame::lines::is_bare(rest) {
        return Err(Refusal {
            reason: Reason::FieldCount,
            field: 2,
        });
    }
    Ok(behind_line(model, polyline, state, polyline.first))
}

// "Line: 1 plus its count of points, its first point".
fn put_line(cells: &mut [i64], cell: usize, count: usize, first: usize)
    requires cell_in_bounds { cell + 1 < length cells.old }
    requires count_bound { (count < 2 ^ 61) × (first < 2 ^ 61) }
    ensures { cells.new ≡ set (set cells.old cell (pos (1 + count))) (cell + 1) (pos first) }
{
    cells[cell] = (1 + count) as i64;
    cells[cell + 1] = first as i64;
}

// ELIN behind the last point of a line.
pub(crate) fn end_line(
    model: &[u8],
    rest: &[u8],
    cells: &mut [i64],
    polyline: OpenLine,
    state: State,
) -> Result<State, Refusal>
    requires line_ready { LineReady model.now polyline state }
    requires cells_in_bounds { state.cells ≤ length cells.old }
    ensures { (a : LineAttribute) (rooms : Rooms) (text : List ℕ) (fs : List Field) (start : ℕ)
        (points : List ℤ) → let b = model.now in
        4 * state.points ≤ length points → drop 1 fs ≡ fields_of start rest.now
        → LineDoes b polyline state (λ c. attribute_line (model_at b) rooms text (way_of b a polyline) fs c ended)
        cells.old points cells.new points result }
{
    if !read_frame::lines::is_bare(rest) {
        return Err(Refusal {
            reason: Reason::FieldCount,
            field: 2,
        });
    }
    put_line(
        cells,
        polyline.cell,
        state.points - polyline.first,
        polyline.first,
    );
    Ok(behind_line(model, polyline, state, state.points))
}
