//! The state of reading, by value: what is due, the line state, and how much of each buffer is used; a line in its
//! text, and the lent buffers.
#![tactic(auto)]

ghost use Rattle.std.specs.Prelude.{◌≡◌, ◌-◌, ◌≤◌, ◌<◌, ◌^◌, length};
ghost use Rattle.meaning.specs.Reading.{stretch, unstarted, started, in_arc, reached, lipt, move, is_forbidden};
ghost use Rattle.read_state.specs.Meaning.{line_state_of, line_code_of, move_of};

// How far the lines of a line attribute have come.
#[derive(Clone, Copy, Debug, PartialEq, Eq)]
pub enum LineState {
    Unstarted,
    Started,
    InArc,
    Reached,
}

// The code of one of its lines.
#[derive(Clone, Copy, Debug, PartialEq, Eq)]
pub enum LineCode {
    Stpt,
    Lipt,
    Arcp,
    Elin,
    Other,
}

// What a line code makes of a line state: a point has its first cell and the next state.
#[derive(Clone, Copy)]
pub enum Move {
    Unexpected,
    UndefinedLine,
    Ended,
    Point(u8, LineState),
}

// "STPT, then one or more of LIPT or ARCP LIPT, then ELIN": a line state takes a line code and hands back its next
// state.
impl LineState {
    pub fn step(self, code: LineCode) -> Move
        ensures { move_of result ≡ move (line_state_of self) (line_code_of code) }
    {
        match self {
            LineState::Unstarted => step_unstarted(code),
            LineState::Started => step_started(code),
            LineState::InArc => step_in_arc(code),
            LineState::Reached => step_reached(code),
        }
    }

    // 18: "straight or arc not in the forms".
    pub fn forbids(self, code: LineCode, forms: usize) -> bool
        ensures { result ≡ is_forbidden forms (line_state_of self) (line_code_of code) }
    {
        match code {
            LineCode::Stpt => false,
            LineCode::Lipt => forbids_straight(self, forms),
            LineCode::Arcp => forms == 1,
            LineCode::Elin => false,
            LineCode::Other => false,
        }
    }
}

fn step_unstarted(code: LineCode) -> Move
    ensures { move_of result ≡ move unstarted (line_code_of code) }
{
    match code {
        LineCode::Stpt => Move::Point(0, LineState::Started),
        LineCode::Lipt => Move::Unexpected,
        LineCode::Arcp => Move::Unexpected,
        LineCode::Elin => Move::UndefinedLine,
        LineCode::Other => Move::Unexpected,
    }
}

fn step_started(code: LineCode) -> Move
    ensures { move_of result ≡ move started (line_code_of code) }
{
    match code {
        LineCode::Stpt => Move::Unexpected,
        LineCode::Lipt => Move::Point(1, LineState::Reached),
        LineCode::Arcp => Move::Point(2, LineState::InArc),
        LineCode::Elin => Move::Unexpected,
        LineCode::Other => Move::Unexpected,
    }
}

fn step_in_arc(code: LineCode) -> Move
    ensures { move_of result ≡ move in_arc (line_code_of code) }
{
    match code {
        LineCode::Stpt => Move::Unexpected,
        LineCode::Lipt => Move::Point(1, LineState::Reached),
        LineCode::Arcp => Move::Unexpected,
        LineCode::Elin => Move::Unexpected,
        LineCode::Other => Move::Unexpected,
    }
}

fn step_reached(code: LineCode) -> Move
    ensures { move_of result ≡ move reached (line_code_of code) }
{
    match code {
        LineCode::Stpt => Move::Unexpected,
        LineCode::Lipt => Move::Point(1, LineState::Reached),
        LineCode::Arcp => Move::Point(2, LineState::InArc),
        LineCode::Elin => Move::Ended,
        LineCode::Other => Move::Unexpected,
    }
}

// A straight ends in a LIPT that does not follow an ARCP.
fn forbids_straight(state: LineState, forms: usize) -> bool
    ensures { result ≡ is_forbidden forms (line_state_of state) lipt }
{
    match state {
        LineState::Unstarted => forms == 2,
        LineState::Started => forms == 2,
        LineState::InArc => false,
        LineState::Reached => forms == 2,
    }
}

// A line attribute whose lines are read: its object's table, its line state, its first point, the byte of its record,
// and the cell of its pair.
#[derive(Clone, Copy)]
pub struct OpenLine {
    pub table: usize,
    pub state: LineState,
    pub first: usize,
    pub at: usize,
    pub cell: usize,
}

// A line outside objects: a topic may be this one or a later one; a table is one of this topic, the second number or a
// later one.
#[derive(Clone, Copy)]
pub enum FrameDue {
    Opening,
    Description,
    Transfer,
    ModelName,
    Topic(usize),
    Table(usize, usize),
    Closing,
    Nothing,
}

// What the next line has to be: a line outside objects, an object of this table or its end, or a line of a line
// attribute.
#[derive(Clone, Copy)]
pub enum Due {
    Frame(FrameDue),
    Object(usize),
    Line(OpenLine),
}

// What is due, and the counts of rows, cells and points read.
#[derive(Clone, Copy)]
pub struct State {
    pub due: Due,
    pub rows: usize,
    pub cells: usize,
    pub points: usize,
}

// The line that stands in the text from `at` to `end`.
#[derive(Clone, Copy)]
pub struct Line<'a> {
    pub text: &'a [u8],
    pub at: usize,
    pub end: usize,
    ghost inside: { (at ≤ end) × (end ≤ length text.now) },
    ghost short: { length text.now < 2 ^ 62 },
}

impl<'a> Line<'a> {
    // Its bytes.
    pub fn bytes(&self) -> &'a [u8]
        ensures { result.now ≡ stretch self.now.text.now self.now.at (self.now.end - self.now.at) }
    {
        &self.text[self.at..self.end]
    }
}

// The lent buffers of the table that is read, its index, and the index's seed.
#[derive(Drop)]
pub struct Buffers<'a> {
    pub marks: &'a mut [u8],
    pub rows: &'a mut [u64],
    pub cells: &'a mut [i64],
    pub points: &'a mut [i64],
    pub index: &'a mut [u64],
    pub seed: u64,
}
