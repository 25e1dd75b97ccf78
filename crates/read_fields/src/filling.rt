// A row filled from its fields: one attribute after the other, the state by value.
ghost use Rattle.std.specs.Prelude.{◌≡◌, false, [], ◌∷◌, ◌+◌, ◌≤◌, ◌<◌, ◌^◌, pos, length, drop};
ghost use Rattle.std.proofs.lemmas.List.Edits.{sets};
ghost use Rattle.meaning.specs.Value.{value_of};
ghost use Rattle.meaning.specs.Model.{Coordinate};
ghost use Rattle.meaning.specs.Row.{component_pairs, pairs_of_type};
ghost use Rattle.model_records.specs.Attributes.{of_kind, type_of};
ghost use Rattle.model_records.specs.Components.{components_of};
ghost use Rattle.value_read.specs.Meant.{value_meant, field_of};
ghost use Rattle.read_fields.specs.RowProgress.{forbids, due, moved, filled, passed, further_asked};
ghost use Rattle.read_fields.specs.RowProgress.{own_asked, going_over, CursorReady};
ghost use Rattle.read_fields.specs.RowProgress.{Puts, Fills};

use crate::taking::Form;
use crate::{storing, taking};
use base::reasons::{Reason, Refusal};
use model_records::{Attribute, Component, Components, Kind};

// How far a row is filled: the byte of the rest of the line, the place of the next field, the cells used, and whether
// the field before was defined.
#[derive(Clone, Copy)]
pub struct RowCursor {
    pub at: usize,
    pub place: usize,
    pub used: usize,
    pub before: bool,
}

// What a field has to be: whether it must be defined, whether it must be undefined, and the type of its attribute.
#[derive(Clone, Copy)]
pub struct FieldRule {
    pub needed: bool,
    pub forbidden: bool,
    pub kind: Kind,
}

impl FieldRule {
    fn forbids(self, form: Form) -> bool
        ensures { result ≡ forbids self form }
    {
        match form {
            Form::Defined => self.forbidden,
            Form::Undefined | Form::Twice => self.needed,
        }
    }
}

// The row goes on; or two undefined bytes stood at the place, with so many pairs of the attribute left.
#[derive(Clone, Copy)]
pub enum RowProgress {
    On(RowCursor),
    RestUndefined(RowCursor, usize),
}

// The value of a defined field, by its type: coordinates come component by component, and lines have no field.
fn read_value(kind: Kind, field: &[u8], start: usize) -> Result<(i64, i64), Reason>
    requires { start + (1 + length field.now) < 2 ^ 63 }
    ensures { value_meant result ≡ value_of (of_kind kind) (field_of start field.now) }
{
    match kind {
        Kind::Reference(_) => value_read::stretches::read_reference(field, start),
        Kind::Number(component) => value_read::numbers::read_number(field, component),
        Kind::Text(longest) => value_read::stretches::read_text(field, start, longest),
        Kind::Date => value_read::dates::read_date(field),
        Kind::Enumeration(leaves) => value_read::dates::read_enumeration(field, leaves as u64),
        Kind::Coordinate(_) | Kind::Line(_, _) => Err(Reason::WrongShape),
    }
}

// The state behind a field, before its pair.
fn behind(cursor: RowCursor, at: usize) -> RowCursor
    ensures { result ≡ moved cursor at }
{
    RowCursor {
        at,
        before: false,
        ..cursor
    }
}

// A field's pair, at a state behind the field.
fn put_next(cells: &mut [i64], cursor: RowCursor, a: i64, b: i64, defined: bool) -> RowCursor
    requires { (cursor.place + 1 < 2 ^ 64) × (cursor.used + 2 < 2 ^ 64) }
    ensures cursor { result ≡ filled cursor defined }
    ensures stored { cells.new ≡ sets cells.old cursor.used (a ∷ b ∷ []) }
{
    storing::put_pair(cells, cursor.used, a, b);
    RowCursor {
        place: cursor.place + 1,
        used: cursor.used + 2,
        before: defined,
        ..cursor
    }
}

// A defined field, at a state behind it: its value's two cells, or its refusal.
fn put_defined(
    asked: FieldRule,
    field: &[u8],
    start: usize,
    cells: &mut [i64],
    cursor: RowCursor,
) -> Result<RowCursor, Refusal>
    requires field_bound { start + (1 + length field.now) < 2 ^ 63 }
    requires place_bound { (cursor.place + 1 < 2 ^ 64) × (cursor.used + 2 < 2 ^ 64) }
    ensures { Puts (value_of (of_kind asked.kind) (field_of start field.now)) cursor
        cells.old cells.new result }
{
    let (a, b) = read_value(asked.kind, field, start).map_err(|reason| Refusal {
        reason,
        field: cursor.place,
    })?;
    Ok(put_next(cells, cursor, a, b, true))
}

// A field that is due, and its pair.
fn put_field(
    asked: FieldRule,
    rest: &[u8],
    start: usize,
    undefined: u8,
    cells: &mut [i64],
    cursor: RowCursor,
) -> Result<RowProgress, Refusal>
    requires { CursorReady start rest.now 2 cursor }
    ensures { Fills undefined start rest.now 2 (due undefined start rest.now asked cursor) cursor
        cells.old cells.new result }
{
    let taken = taking::take_field(&rest[cursor.at..], undefined).ok_or(Refusal {
        reason: Reason::FieldCount,
        field: cursor.place,
    })?;
    if asked.forbids(taken.form) {
        return Err(Refusal {
            reason: Reason::UndefinedField,
            field: cursor.place,
        });
    }
    let a = cursor.at + taken.part.start;
    let e = a + taken.part.len;
    match taken.form {
        Form::Defined => {
            let t = put_defined(asked, &rest[a..e], start + a, cells, behind(cursor, e))?;
            Ok(RowProgress::On(t))
        }
        // "Undefined is 0 0"
        Form::Undefined => Ok(RowProgress::On(put_next(cells, behind(cursor, e), 0, 0, false))),
        Form::Twice => Ok(RowProgress::RestUndefined(behind(cursor, e), 1)),
    }
}

// A line attribute's pair: it has no field here, lines of its own follow.
fn put_line(cells: &mut [i64], cursor: RowCursor) -> RowCursor
    requires { cursor.used + 2 < 2 ^ 64 }
    ensures cursor { result ≡ passed cursor }
    ensures stored { cells.new ≡ sets cells.old cursor.used (pos 0 ∷ pos 0 ∷ []) }
{
    storing::put_pair(cells, cursor.used, 0, 0);
    RowCursor {
        used: cursor.used + 2,
        ..cursor
    }
}

// A further component must be defined where the one before is, and undefined where that one is.
fn ask_further(before: bool, component: Component) -> FieldRule
    ensures { result ≡ further_asked before component }
{
    FieldRule {
        needed: before,
        forbidden: !before,
        kind: Kind::Number(component),
    }
}

// The components behind a coordinate's first one.
fn put_further(
    components: Components,
    rest: &[u8],
    start: usize,
    undefined: u8,
    cells: &mut [i64],
    cursor: RowCursor,
) -> Result<RowProgress, Refusal>
    requires { CursorReady start rest.now 4 cursor }
    ensures { Fills undefined start rest.now 4
        (going_over undefined start rest.now (component_pairs (drop 1 (components_of components))) cursor)
        cursor cells.old cells.new result }
{
    let count = components.count;
    let items = components.items;
    let mut t = cursor;
    for i in 1..count {
        let asked = ask_further(t.before, items[i]);
        match put_field(asked, rest, start, undefined, cells, t)? {
            RowProgress::On(v) => t = v,
            RowProgress::RestUndefined(v, left) => {
                return Ok(RowProgress::RestUndefined(v, left + (count - 1 - i)));
            }
        }
    }
    Ok(RowProgress::On(t))
}

// An attribute's own field, and a coordinate's first component, must be defined where the attribute is mandatory.
fn ask_own(optional: bool, kind: Kind) -> FieldRule
    ensures { result ≡ own_asked optional kind }
{
    FieldRule {
        needed: !optional,
        forbidden: false,
        kind,
    }
}

// A coordinate: its first component, and then the others.
fn put_coordinate(
    optional: bool,
    components: Components,
    rest: &[u8],
    start: usize,
    undefined: u8,
    cells: &mut [i64],
    cursor: RowCursor,
) -> Result<RowProgress, Refusal>
    requires { CursorReady start rest.now 6 cursor }
    ensures { Fills undefined start rest.now 6
        (going_over undefined start rest.now
        (pairs_of_type optional (Coordinate (components_of components))) cursor)
        cursor cells.old cells.new result }
{
    let count = components.count;
    if count == 0 {
        return Ok(RowProgress::On(cursor));
    }
    let asked = ask_own(optional, Kind::Number(components.items[0]));
    match put_field(asked, rest, start, undefined, cells, cursor)? {
        RowProgress::On(t) => put_further(components, rest, start, undefined, cells, t),
        RowProgress::RestUndefined(t, left) => {
            Ok(RowProgress::RestUndefined(t, left + (count - 1)))
        }
    }
}

// An attribute by its type.
pub fn put_attribute(
    attribute: Attribute,
    rest: &[u8],
    start: usize,
    undefined: u8,
    cells: &mut [i64],
    cursor: RowCursor,
) -> Result<RowProgress, Refusal>
    requires { CursorReady start rest.now 6 cursor }
    ensures { Fills undefined start rest.now 6
        (going_over undefined start rest.now (pairs_of_type attribute.optional (type_of attribute)) cursor)
        cursor cells.old cells.new result }
{
    let optional = attribute.optional;
    match attribute.kind {
        Kind::Coordinate(components) => {
            put_coordinate(optional, components, rest, start, undefined, cells, cursor)
        }
        Kind::Line(_, _) => Ok(RowProgress::On(put_line(cells, cursor))),
        _ => {
            let asked = ask_own(optional, attribute.kind);
            put_field(asked, rest, start, undefined, cells, cursor)
        }
    }
}
