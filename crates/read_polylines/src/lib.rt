//! The lines of a line attribute: which line attribute is due, and what each of its lines makes of the table.
#![tactic(auto)]

ghost use Rattle.std.specs.Prelude.{◌≡◌, List, ℕ, ◌+◌, ◌*◌, ◌≤◌, ◌<◌, ◌^◌, length, drop, get_or};
ghost use Rattle.meaning.specs.Field.{Field, fields_of};
ghost use Rattle.meaning.specs.Reading as meaning;
ghost use Rattle.meaning.specs.Reading.{due_lines, Rooms, move};
ghost use Rattle.meaning.specs.Lines.{attribute_line, line_due};
ghost use Rattle.model_records.specs.Attributes.{RecordLine};
ghost use Rattle.model_records.specs.Records.{model_at, pairs_at};
ghost use Rattle.model_records.specs.AtRecord.{AttributesHere};
ghost use Rattle.read_state.specs.declared.Due.TheVariants.{Line};
ghost use Rattle.read_state.specs.Meaning.{line_state_of, line_code_of, due_of, lines_at};
ghost use Rattle.read_state.specs.Holds.{DueHolds};
ghost use Rattle.read_polylines.specs.Ways.{way_of, LineGiven, LineDoes};

pub mod moves;
pub mod point_fields;
pub mod points;

use base::reasons::{Reason, Refusal};
use model_records::{LINE, LineAttribute, counts};
use read_state::{Due, LineCode, LineState, Move, OpenLine, State};

// The next line attribute among the attribute records from `at` on, whose first pair is at `cell`, or the next object.
pub fn due_lines(model: &[u8], table: usize, at: usize, cell: usize, first: usize) -> Due
    requires table_in_bounds { table < length (model_at model.now).tables }
    requires attributes_here { AttributesHere (model_at model.now) model.now at }
    requires at_bound { cell + 2 * length (pairs_at model.now at) < 2 ^ 64 }
    ensures due { due_of model.now result ≡ due_lines table first (lines_at model.now at cell) }
    ensures holds { (rows : List ℕ) (n used points : ℕ) → let b = model.now in
        ((o : ℕ) → o < n → get_or rows o 0 + 2 < cell) → cell + 2 * length (pairs_at b at) ≤ used → first ≤ points
        → DueHolds (model_at b) b rows n used points result }
{
    let mut pair = cell;
    for byte in model_records::attribute_records(model, at) {
        let kind = model[byte + 5];
        if kind == LINE {
            return Due::Line(OpenLine {
                table,
                state: LineState::Unstarted,
                first,
                at: byte,
                cell: pair,
            });
        }
        let counts = counts::count_of(kind);
        pair += 2 * counts.pairs;
    }
    Due::Object(table)
}

// A line of the line attribute under way, by its code and the rest behind it; `attribute` is that of its record.
fn move_line(
    model: &[u8],
    attribute: LineAttribute,
    code: LineCode,
    rest: &[u8],
    undefined: u8,
    cells: &mut [i64],
    points: &mut [i64],
    polyline: OpenLine,
    state: State,
) -> Result<State, Refusal>
    requires line_given { LineGiven model.now undefined polyline state cells.old points.old }
    requires record_line { RecordLine model.now polyline.at attribute }
    ensures { (rooms : Rooms) (text : List ℕ) (fs : List Field) (start : ℕ) → let b = model.now in
        rooms.points ≡ length points.old → drop 1 fs ≡ fields_of start rest.now
        → meaning.line_code_of fs ≡ line_code_of code
        → let moved = move (line_state_of polyline.state) (meaning.line_code_of fs) in
        LineDoes b polyline state (λ c. attribute_line (model_at b) rooms text (way_of b attribute polyline) fs c moved)
        cells.old points.old cells.new points.new result }
{
    match polyline.state.step(code) {
        Move::Unexpected => Err(Refusal {
            reason: Reason::OtherCode,
            field: 1,
        }),
        Move::UndefinedLine => moves::undefined_line(
            model,
            attribute.optional,
            rest,
            polyline,
            state,
        ),
        Move::Ended => moves::end_line(model, rest, cells, polyline, state),
        Move::Point(kind, next) => points::point_line(
            attribute, code, rest, undefined, points, kind, next, polyline, state,
        ),
    }
}

// A line of the line attribute under way.
pub fn attribute_line(
    model: &[u8],
    line: &[u8],
    undefined: u8,
    cells: &mut [i64],
    points: &mut [i64],
    polyline: OpenLine,
    state: State,
) -> Result<State, Refusal>
    requires { LineGiven model.now undefined polyline state cells.old points.old }
    ensures { (rooms : Rooms) (text : List ℕ) (start : ℕ) → let b = model.now in
        rooms.points ≡ length points.old
        → LineDoes b polyline state
        (λ c. line_due (model_at b) rooms text (due_of b (Line polyline))
        line.now (fields_of start line.now) c)
        cells.old points.old cells.new points.new result }
{
    let head = read_frame::codes::head_of(line);
    let attribute = model_records::line_at(model, polyline.at);
    let code = moves::name_code(head.code);
    move_line(
        model,
        attribute,
        code,
        &line[head.behind..],
        undefined,
        cells,
        points,
        polyline,
        state,
    )
}
