// The lines of an object, put into a lent room, each cut to the width.
ghost use Rattle.std.specs.Prelude.{◌≡◌, true, List, [], ◌∷◌, ◌++◌, ℕ, ◌+◌, ◌*◌, ◌-◌, ◌/◌, ◌≤◌, ◌<◌, ◌^◌, min};
ghost use Rattle.std.specs.Prelude.{pos, length, drop, get_or};
ghost use Rattle.meaning.specs.Field.{OBJE, ELIN};
ghost use Rattle.meaning.specs.Check.{good_components};
ghost use Rattle.meaning.specs.Model.{attribute_of};
ghost use Rattle.meaning.specs.Row.{pairs_of_type};
ghost use Rattle.meaning.specs.Reading.{cell_at, line_attributes};
ghost use Rattle.meaning.specs.Writing.{identification_bytes, pair_fields, point_code, point_fields, point_lines};
ghost use Rattle.meaning.specs.Writing.{attribute_lines, object_lines, spaced, line_bytes, lines_bytes};
ghost use Rattle.meaning.specs.Width.{cut_line, cut_lines};
ghost use Rattle.model_records.specs.Components.{components_of};
ghost use Rattle.model_records.specs.Records.{model_at, payload_at, pairs_at};
ghost use Rattle.model_records.specs.AtRecord.{AttributeHere, AttributesHere};
ghost use Rattle.write_lines.specs.Puts.{Puts};
ghost use Rattle.table.specs.Contents.{content, content_in};

use crate::fields;
use model_records::counts::count_of;
use model_records::{Components, Kind};
use table::{Table, cells};
use write_lines::cuts::end_line;
use write_lines::fields::{put_bytes, put_nothing};
use write_lines::{LineStyle, Put, values};

// The fields of the pairs, from this cell on, of the attribute whose record is at a byte.
fn put_attribute_at(
    model: &[u8],
    table: &Table<'_>,
    undefined: u8,
    at: usize,
    cell: usize,
    out: &mut [u8],
    put: Put,
) -> Put
    requires attribute_here { AttributeHere model.now at }
    requires cell_bound { cell + 6 < 2 ^ 64 }
    ensures { let t = table.now in
        let attribute = attribute_of at (payload_at model.now at) in
        let pairs = pairs_of_type attribute.optional attribute.type in
        let fields = pair_fields undefined t.text.now (content t) pairs (drop cell t.cells.now) in
        Puts (spaced fields) put out.old out.new result }
{
    let attribute = model_records::attribute_at(model, at);
    fields::put_attribute(table, undefined, attribute, cell, out, put)
}

// The fields of a row's pairs; the attribute records of its table begin at the byte `first`.
fn put_pairs(
    model: &[u8],
    first: usize,
    table: &Table<'_>,
    undefined: u8,
    row: usize,
    out: &mut [u8],
    put: Put,
) -> Put
    requires { AttributesHere (model_at model.now) model.now first }
    ensures { let t = table.now in
        let pairs = pairs_at model.now first in
        let fields = pair_fields undefined t.text.now (content t) pairs (drop (row + 3) t.cells.now) in
        Puts (spaced fields) put out.old out.new result }
{
    let mut cell = row.min(table.cells.len()) + 3;
    let mut all = put_nothing(put);
    for at in model_records::attribute_records(model, first) {
        all = put_attribute_at(model, table, undefined, at, cell, out, all);
        cell += 2 * count_of(model[at + 5]).pairs;
    }
    all
}

// The bytes of an object's line.
fn put_object_bytes(
    model: &[u8],
    first: usize,
    table: &Table<'_>,
    undefined: u8,
    row: usize,
    out: &mut [u8],
    put: Put,
) -> Put
    requires { AttributesHere (model_at model.now) model.now first }
    ensures { let t = table.now in
        let pairs = pairs_at model.now first in
        let fields = pair_fields undefined t.text.now (content t) pairs (drop (row + 3) t.cells.now) in
        let id = identification_bytes t.text.now t.cells.now row in
        Puts (line_bytes (OBJE ∷ id ∷ fields)) put out.old out.new result }
{
    let code = put_bytes(out, put, b"OBJE ");
    let id = fields::put_identification(table, row, out, code);
    put_pairs(model, first, table, undefined, row, out, id)
}

// The line of an object.
fn put_object_line(
    model: &[u8],
    first: usize,
    table: &Table<'_>,
    style: LineStyle,
    row: usize,
    out: &mut [u8],
    put: Put,
) -> Put
    requires { AttributesHere (model_at model.now) model.now first }
    ensures { let t = table.now in
        let pairs = pairs_at model.now first in
        let cs = drop (row + 3) t.cells.now in
        let fields = pair_fields style.undefined t.text.now (content t) pairs cs in
        let line = line_bytes (OBJE ∷ identification_bytes t.text.now t.cells.now row ∷ fields) in
        Puts (cut_line style.mark style.width line) put out.old out.new result }
{
    let line = put_object_bytes(model, first, table, style.undefined, row, out, put);
    end_line(out, put.count, line, style)
}

// The code of a point's line: "0 STPT, 1 LIPT, 2 ARCP".
fn put_code(kind: i64, out: &mut [u8], put: Put) -> Put
    ensures { Puts (point_code kind) put out.old out.new result }
{
    let code = match kind.unsigned_abs() {
        0 => b"STPT",
        1 => b"LIPT",
        _ => b"ARCP",
    };
    put_bytes(out, put, code)
}

// The fields of the point at a place.
fn put_point_fields(
    points: &[i64],
    components: Components,
    at: usize,
    out: &mut [u8],
    put: Put,
) -> Put
    requires { good_components (components_of components) ≡ true }
    ensures { let fields = point_fields (components_of components) (drop 1 (drop at points.now)) in
        Puts (spaced fields) put out.old out.new result }
{
    let mut all = put_nothing(put);
    for i in 0..components.count {
        let decimals = components.items[i].decimals;
        let v = cells::cell_behind(points, at, i + 1);
        all = values::put_number_field(out, all, decimals, v);
    }
    all
}

// The bytes of a point's line.
fn put_point_bytes(
    points: &[i64],
    components: Components,
    at: usize,
    out: &mut [u8],
    put: Put,
) -> Put
    requires { good_components (components_of components) ≡ true }
    ensures { let code = point_code (get_or (drop at points.now) 0 (pos 0)) in
        let fields = point_fields (components_of components) (drop 1 (drop at points.now)) in
        Puts (line_bytes (code ∷ fields)) put out.old out.new result }
{
    let kind = cells::cell_behind(points, at, 0);
    let code = put_code(kind, out, put);
    put_point_fields(points, components, at, out, code)
}

// The line of a point.
fn put_point(
    points: &[i64],
    components: Components,
    at: usize,
    style: LineStyle,
    out: &mut [u8],
    put: Put,
) -> Put
    requires { good_components (components_of components) ≡ true }
    ensures { let code = point_code (get_or (drop at points.now) 0 (pos 0)) in
        let fields = point_fields (components_of components) (drop 1 (drop at points.now)) in
        let line = line_bytes (code ∷ fields) in
        Puts (cut_line style.mark style.width line) put out.old out.new result }
{
    let line = put_point_bytes(points, components, at, out, put);
    end_line(out, put.count, line, style)
}

// The lines of so many points, from this one on.
fn put_points(
    points: &[i64],
    components: Components,
    first: usize,
    count: usize,
    style: LineStyle,
    out: &mut [u8],
    put: Put,
) -> Put
    requires good { good_components (components_of components) ≡ true }
    requires count_in_bounds { 4 * count ≤ length points.now }
    ensures { let lines = point_lines (components_of components) count (drop (4 * first) points.now) in
        Puts (cut_lines style.mark style.width (lines_bytes lines)) put out.old out.new result }
{
    let start = 4 * first.min(points.len());
    let mut all = put_nothing(put);
    for i in 0..count {
        let at = start + 4 * i;
        all = put_point(points, components, at, style, out, all);
    }
    all
}

// The line behind a line attribute's points.
fn put_elin(style: LineStyle, out: &mut [u8], put: Put) -> Put
    ensures { let lines = (ELIN ∷ []) ∷ [] in
        Puts (cut_lines style.mark style.width (lines_bytes lines)) put out.old out.new result }
{
    let line = put_bytes(out, put, b"ELIN");
    end_line(out, put.count, line, style)
}

// "Line: 1 plus its count of points", no more than there are.
fn count_points(table: &Table<'_>, cell: usize) -> usize
    ensures { let t = table.now in
        result ≡ min (cell_at t.cells.now cell - 1) (length t.points.now / 4) }
{
    cells::size_behind(table.cells, cell, 0)
        .saturating_sub(1)
        .min(table.points.len() / 4)
}

// The lines of the line attribute whose pair is at this cell: its points, and ELIN.
fn put_line(
    table: &Table<'_>,
    components: Components,
    cell: usize,
    style: LineStyle,
    out: &mut [u8],
    put: Put,
) -> Put
    requires { good_components (components_of components) ≡ true }
    ensures { let t = table.now in
        let count = min (cell_at t.cells.now cell - 1) (length t.points.now / 4) in
        let from = drop (4 * cell_at t.cells.now (cell + 1)) t.points.now in
        let lines = point_lines (components_of components) count from ++ ((ELIN ∷ []) ∷ []) in
        Puts (cut_lines style.mark style.width (lines_bytes lines)) put out.old out.new result }
{
    let count = count_points(table, cell);
    let first = cells::size_behind(table.cells, cell, 1);
    let drawn = put_points(table.points, components, first, count, style, out, put);
    put_elin(style, out, drawn)
}

// The lines of the attribute whose record is at a byte: none where it is no line attribute.
fn put_line_at(
    model: &[u8],
    table: &Table<'_>,
    style: LineStyle,
    at: usize,
    cell: usize,
    out: &mut [u8],
    put: Put,
) -> Put
    requires { AttributeHere model.now at }
    ensures { let attribute = attribute_of at (payload_at model.now at) in
        let pairs = pairs_of_type attribute.optional attribute.type in
        let lines = attribute_lines (content table.now) (line_attributes cell pairs) in
        Puts (cut_lines style.mark style.width (lines_bytes lines)) put out.old out.new result }
{
    let Kind::Line(_, components) = model_records::attribute_at(model, at).kind else {
        return put_nothing(put);
    };
    put_line(table, components, cell, style, out, put)
}

// The lines of a row's line attributes.
fn put_attribute_lines(
    model: &[u8],
    first: usize,
    table: &Table<'_>,
    style: LineStyle,
    row: usize,
    out: &mut [u8],
    put: Put,
) -> Put
    requires { AttributesHere (model_at model.now) model.now first }
    ensures { let pairs = pairs_at model.now first in
        let lines = attribute_lines (content table.now) (line_attributes (row + 3) pairs) in
        Puts (cut_lines style.mark style.width (lines_bytes lines)) put out.old out.new result }
{
    let mut cell = row.min(table.cells.len()) + 3;
    let mut all = put_nothing(put);
    for at in model_records::attribute_records(model, first) {
        all = put_line_at(model, table, style, at, cell, out, all);
        cell += 2 * count_of(model[at + 5]).pairs;
    }
    all
}

// The lines of the object whose row begins at this cell; the attribute records of its table begin at the byte `first`.
pub fn put_object(
    model: &[u8],
    first: usize,
    table: &Table<'_>,
    style: LineStyle,
    row: usize,
    out: &mut [u8],
    put: Put,
) -> Put
    requires attributes_here { AttributesHere (model_at model.now) model.now first }
    requires undefined_value { style.undefined ≡ (model_at model.now).undefined }
    ensures { (marks : List ℕ) →
        let b = model.now in
        let t = table.now in
        let c = content_in marks t.rows.now t.cells.now t.points.now in
        let lines = object_lines (model_at b) t.text.now c (pairs_at b first) row in
        Puts (cut_lines style.mark style.width (lines_bytes lines)) put out.old out.new result }
{
    let line = put_object_line(model, first, table, style, row, out, put);
    put_attribute_lines(model, first, table, style, row, out, line)
}
