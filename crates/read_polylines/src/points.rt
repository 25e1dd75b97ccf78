// The points of a line: STPT, LIPT and ARCP.
ghost use Rattle.std.specs.Prelude.{◌≡◌, List, [], ℕ, ◌+◌, ◌*◌, ◌≤◌, ◌<◌, ℤ, length, take, drop};
ghost use Rattle.meaning.specs.Field.{Field, fields_of};
ghost use Rattle.meaning.specs.Row.{component_values, point_cells};
ghost use Rattle.meaning.specs.Reading as meaning;
ghost use Rattle.meaning.specs.Reading.{Rooms, point};
ghost use Rattle.meaning.specs.Lines.{attribute_line};
ghost use Rattle.model_records.specs.Components.{components_of};
ghost use Rattle.model_records.specs.Records.{model_at};
ghost use Rattle.model_records.specs.Attributes.{RecordLine};
ghost use Rattle.read_state.specs.Meaning.{line_state_of, line_code_of};
ghost use Rattle.read_state.specs.Holds.{LineHolds};
ghost use Rattle.read_polylines.specs.Ways.{way_of, LineDoes};
ghost use Rattle.read_polylines.specs.Points.{Stores, Joins};

use crate::point_fields;
use base::reasons::{Reason, Refusal};
use model_records::{Components, LineAttribute};
use read_state::{Due, LineCode, LineState, OpenLine, State};

// A point joins the table where there is room for it; the polyline has the line state behind it.
fn store_point(
    points: &mut [i64],
    kind: u8,
    values: [i64; 3],
    count: usize,
    polyline: OpenLine,
    state: State,
) -> Result<State, Refusal>
    requires le_count { (2 ≤ count) × (count ≤ 3) × (length values ≡ 3) }
    requires points_in_bounds { 4 * state.points ≤ length points.old }
    ensures { Stores (point_cells kind (take count values)) polyline state points.old points.new result }
{
    let at = 4 * state.points;
    if points.len() - at < 4 {
        return Err(Refusal {
            reason: Reason::TableFull,
            field: 0,
        });
    }
    table::points::put_point(points, at, kind, values, count);
    Ok(State {
        due: Due::Line(polyline),
        points: state.points + 1,
        ..state
    })
}

// A point from the fields behind its line's code; the polyline has the line state behind it.
fn read_point(
    components: Components,
    rest: &[u8],
    undefined: u8,
    points: &mut [i64],
    kind: u8,
    polyline: OpenLine,
    state: State,
) -> Result<State, Refusal>
    requires counted { (2 ≤ components.count) × (components.count ≤ 3) }
    requires points_in_bounds { 4 * state.points ≤ length points.old }
    ensures { (start : ℕ) → Joins kind polyline state points.old points.new result
        (component_values undefined 2 (components_of components) (fields_of start rest.now)) }
{
    let values = point_fields::point_values(rest, undefined, components)?;
    store_point(points, kind, values, components.count, polyline, state)
}

// The line of a point, whose code makes this line state: 18 comes before its fields.
pub(crate) fn point_line(
    attribute: LineAttribute,
    code: LineCode,
    rest: &[u8],
    undefined: u8,
    points: &mut [i64],
    kind: u8,
    next: LineState,
    polyline: OpenLine,
    state: State,
) -> Result<State, Refusal>
    requires counted { (2 ≤ attribute.components.count) × (attribute.components.count ≤ 3) }
    requires points_in_bounds { 4 * state.points ≤ length points.old }
    ensures { (b text : List ℕ) (rooms : Rooms) (fs : List Field) (start : ℕ) (cells : List ℤ)
        → RecordLine b polyline.at attribute
        → LineHolds (model_at b) b [] 0 state.cells state.points polyline
        → (model_at b).undefined ≡ undefined → rooms.points ≡ length points.old
        → drop 1 fs ≡ fields_of start rest.now → meaning.line_code_of fs ≡ line_code_of code
        → LineDoes b polyline state
        (λ c. attribute_line (model_at b) rooms text (way_of b attribute polyline) fs c
        (point kind (line_state_of next)))
        cells points.old cells points.new result }
{
    if polyline.state.forbids(code, attribute.forms) {
        return Err(Refusal {
            reason: Reason::FormForbidden,
            field: 1,
        });
    }
    let moved = OpenLine {
        state: next,
        ..polyline
    };
    read_point(
        attribute.components,
        rest,
        undefined,
        points,
        kind,
        moved,
        state,
    )
}
