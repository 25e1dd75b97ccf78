// The row of an OBJE line: the fields behind its identification, by the attribute records of its table.
ghost use Rattle.std.specs.Prelude.{◌≡◌, true, ℕ, ◌+◌, ◌*◌, ◌≤◌, ◌<◌, ◌^◌, length};
ghost use Rattle.meaning.specs.Field.{fields_of};
ghost use Rattle.meaning.specs.Row.{has_mandatory, pair_cells};
ghost use Rattle.model_records.specs.Records.{model_at, pairs_at};
ghost use Rattle.model_records.specs.AtRecord.{AttributeHere, AttributesHere};
ghost use Rattle.read_fields.specs.RowProgress.{going_over, covering, CursorReady, Fills};
ghost use Rattle.read_objects.specs.Fields.{record_pairs, EndsHere, Ends};

use base::reasons::{Reason, Refusal};
use model_records::{ATTRIBUTE, LINE, counts};
use read_fields::filling::{RowCursor, RowProgress};
use read_fields::{filling, storing};

// Whether the field of the attribute record at a byte may not be undefined; a line has none here. Its type's number and
// its flag say it: what is not asked for is not decoded.
fn is_mandatory(model: &[u8], at: usize) -> bool
    requires { AttributeHere model.now at }
    ensures { result ≡ has_mandatory (record_pairs model.now at) }
{
    (model[at + 5] != LINE) & (model[at + 4] != 1)
}

// Whether one of the attributes from a byte on may not be undefined.
fn has_mandatory(model: &[u8], at: usize) -> bool
    requires { AttributesHere (model_at model.now) model.now at }
    ensures { result ≡ has_mandatory (pairs_at model.now at) }
{
    for here in model_records::attribute_records(model, at) {
        if is_mandatory(model, here) {
            return true;
        }
    }
    false
}

// The pairs of the attribute record at a byte.
fn put_record(
    model: &[u8],
    at: usize,
    rest: &[u8],
    start: usize,
    undefined: u8,
    cells: &mut [i64],
    cursor: RowCursor,
) -> Result<RowProgress, Refusal>
    requires attribute_here { AttributeHere model.now at }
    requires cursor_ready { CursorReady start rest.now 6 cursor }
    ensures { let fields = rest.now in
        Fills undefined start fields 6 (going_over undefined start fields (record_pairs model.now at) cursor)
        cursor cells.old cells.new result }
{
    let a = model_records::attribute_at(model, at);
    filling::put_attribute(a, rest, start, undefined, cells, cursor)
}

// Behind the last attribute no field is left: the row is full with so many cells behind its first three.
fn end_row(rest: &[u8], cursor: RowCursor) -> Result<usize, Refusal>
    requires { cursor.at ≤ length rest.now }
    ensures { EndsHere rest.now cursor result }
{
    if base::fields::next_field(&rest[cursor.at..]).is_some() {
        return Err(Refusal {
            reason: Reason::FieldCount,
            field: cursor.place,
        });
    }
    Ok(cursor.used)
}

// Two undefined bytes stood before: the attribute's pairs left and those of the records from a byte on are undefined.
fn undefine_rest(
    model: &[u8],
    at: usize,
    rest: &[u8],
    left: usize,
    cells: &mut [i64],
    cursor: RowCursor,
) -> Result<usize, Refusal>
    requires attributes_here { AttributesHere (model_at model.now) model.now at }
    requires at_in_bounds { (cursor.at ≤ length rest.now) × (cursor.place + 1 < 2 ^ 64)
        × (cursor.used + (left + left) ≤ at + at) }
    ensures { (start : ℕ) → let b = model.now in
        Ends (covering start rest.now cursor left (pairs_at b at)) (2 * length b) cursor.used
        cells.old cells.new result }
{
    if has_mandatory(model, at) {
        return Err(Refusal {
            reason: Reason::UndefinedField,
            field: cursor.place,
        });
    }
    if base::fields::next_field(&rest[cursor.at..]).is_some() {
        return Err(Refusal {
            reason: Reason::FieldCount,
            field: cursor.place + 1,
        });
    }
    let pairs = left + counts::count_pairs(model, at);
    storing::put_zeros(cells, cursor.used, pairs);
    Ok(cursor.used + 2 * pairs)
}

// The fields of an OBJE line behind its identification, as pairs behind the row's first three cells. The part of the
// cells that starts there is lent on to the field writers.
pub(crate) fn row_fields(
    model: &[u8],
    at: usize,
    rest: &[u8],
    start: usize,
    undefined: u8,
    cells: &mut [i64],
) -> Result<usize, Refusal>
    requires attributes_here { AttributesHere (model_at model.now) model.now at }
    requires rest_bound { start + length rest.now < 2 ^ 62 }
    ensures { let b = model.now in
        Ends (pair_cells undefined true 3 (pairs_at b at) (fields_of start rest.now)) (2 * length b) 0
        cells.old cells.new result }
{
    let mut here = at;
    let mut s = RowCursor {
        at: 0,
        place: 3,
        used: 0,
        before: true,
    };
    // By hand: where the rest is undefined, the byte of the next record is handed on.
    while model_records::kind_at(model, here) == ATTRIBUTE {
        let next = model_records::next_at(model, here);
        match put_record(model, here, rest, start, undefined, cells, s)? {
            RowProgress::On(t) => s = t,
            RowProgress::RestUndefined(t, left) => {
                return undefine_rest(model, next, rest, left, cells, t);
            }
        }
        here = next;
    }
    end_row(rest, s)
}
