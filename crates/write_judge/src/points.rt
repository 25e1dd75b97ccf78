// The points of a line.
ghost use Rattle.std.specs.Prelude.{◌≡◌, Bool, [], ◌∷◌, ◌+◌, ◌*◌, ◌≤◌, pos, length, get_or};
ghost use Rattle.meaning.specs.Reading as meaning;
ghost use Rattle.meaning.specs.Reading.{unstarted};
ghost use Rattle.meaning.specs.Judge.{kind_code_of, are_within, is_reached, judge_points};
ghost use Rattle.model_records.specs.Components.{components_of};
ghost use Rattle.read_state.specs.Meaning.{line_state_of, line_code_of};
ghost use Rattle.write_judge.specs.Meant.{passed_then, point_then};

use crate::cells;
use model_records::Components;
use read_state::{LineCode, LineState, Move};

// "0 STPT, 1 LIPT, 2 ARCP"
// By tests: the proof of a match on the number did not close.
fn code_of(kind: i64) -> LineCode
    ensures { line_code_of result ≡ kind_code_of kind }
{
    if cells::is_number(kind, 0) {
        return LineCode::Stpt;
    }
    if cells::is_number(kind, 1) {
        return LineCode::Lipt;
    }
    if cells::is_number(kind, 2) {
        return LineCode::Arcp;
    }
    LineCode::Other
}

// "east; north; height or 0": the values of a point of two or three components.
fn are_within(components: Components, east: i64, north: i64, height: i64) -> bool
    requires { (2 ≤ components.count) × (components.count ≤ 3) }
    ensures { result ≡ are_within (components_of components) (east ∷ north ∷ height ∷ []) }
{
    let items = components.items;
    let first = value_read::numbers::is_within(items[0], east);
    let second = value_read::numbers::is_within(items[1], north);
    let third = if components.count == 3 {
        value_read::numbers::is_within(items[2], height)
    } else {
        cells::is_number(height, 0)
    };
    first & second & third
}

// May a line end here?
fn is_reached(state: LineState) -> bool
    ensures { result ≡ is_reached (line_state_of state) }
{
    state == LineState::Reached
}

// A point of a line by its four cells, from a line state on: the line state behind it, where it is fine.
fn pass_point(
    forms: usize,
    components: Components,
    state: LineState,
    kind: i64,
    east: i64,
    north: i64,
    height: i64,
) -> Option<LineState>
    requires { (2 ≤ components.count) × (components.count ≤ 3) }
    ensures { (next : meaning.LineState → Bool) → passed_then result next ≡
        point_then forms (components_of components) (line_state_of state) kind east north height next }
{
    let code = code_of(kind);
    if state.forbids(code, forms) {
        return None;
    }
    if !are_within(components, east, north, height) {
        return None;
    }
    match state.step(code) {
        Move::Unexpected | Move::UndefinedLine | Move::Ended => None,
        Move::Point(_, next) => Some(next),
    }
}

// The point at a cell, "four cells".
fn judge_point(
    forms: usize,
    components: Components,
    state: LineState,
    points: &[i64],
    at: usize,
) -> Option<LineState>
    requires counted { (2 ≤ components.count) × (components.count ≤ 3) }
    requires at_in_bounds { at + 4 ≤ length points.now }
    ensures { (next : meaning.LineState → Bool) → let p = points.now in
        passed_then result next ≡ point_then forms (components_of components) (line_state_of state)
        (get_or p at (pos 0)) (get_or p (at + 1) (pos 0)) (get_or p (at + 2) (pos 0)) (get_or p (at + 3) (pos 0)) next }
{
    pass_point(
        forms,
        components,
        state,
        points[at],
        points[at + 1],
        points[at + 2],
        points[at + 3],
    )
}

// "STPT, then one or more of LIPT or ARCP LIPT, then ELIN": so many points that end a line.
pub(crate) fn judge_points(forms: usize, components: Components, points: &[i64], n: usize) -> bool
    requires counted { (2 ≤ components.count) × (components.count ≤ 3) }
    requires n_in_bounds { 4 * n ≤ length points.now }
    ensures { result ≡ judge_points forms (components_of components) unstarted n points.now }
{
    let mut state = LineState::Unstarted;
    for i in 0..n {
        let Some(next) = judge_point(forms, components, state, points, 4 * i) else {
            return false;
        };
        state = next;
    }
    is_reached(state)
}
