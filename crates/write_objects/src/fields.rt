// The fields of an object's line, put into a lent room. A cell or a row outside its list is 0, a stretch
// outside the text is cut.
ghost use Rattle.std.specs.Prelude.{◌≡◌, true, [], ◌∷◌, ◌+◌, ◌-◌, ◌≤◌, ◌<◌, ◌^◌, pos, nat_abs, drop, get_or};
ghost use Rattle.meaning.specs.Check.{good_components, good_type};
ghost use Rattle.meaning.specs.Digits.{number_bytes};
ghost use Rattle.meaning.specs.Row.{pairs_of_type};
ghost use Rattle.meaning.specs.Writing.{stretch_bytes, identification_bytes, type_bytes, field_bytes, pair_fields};
ghost use Rattle.meaning.specs.Writing.{spaced};
ghost use Rattle.model_records.specs.Components.{components_of};
ghost use Rattle.model_records.specs.Attributes.{of_kind, type_of};
ghost use Rattle.write_lines.specs.Puts.{Puts};
ghost use Rattle.write_objects.specs.Given.{component_fields};
ghost use Rattle.table.specs.Contents.{content};

use model_records::{Attribute, Components, Kind};
use table::stretches::cut_stretch;
use table::{Table, cells};
use write_lines::fields::{put_byte, put_bytes, put_field, put_nothing};
use write_lines::{Put, values};

// The row of an object.
fn row_of(rows: &[u64], o: usize) -> usize
    ensures { result ≡ get_or rows.now o 0 }
{
    rows.get(o).map_or(0, |row| *row as usize)
}

// A stretch of the text, none where it begins before the text.
fn put_stretch(text: &[u8], start: i64, size: usize, out: &mut [u8], put: Put) -> Put
    ensures { Puts (stretch_bytes text.now start size) put out.old out.new result }
{
    if start < 0 {
        return put_nothing(put);
    }
    let part = cut_stretch(text.len(), cells::size_of(start), size);
    let from = part.start;
    let end = from + part.len;
    put_bytes(out, put, &text[from..end])
}

// The identification of the object whose row begins at this cell.
pub(crate) fn put_identification(table: &Table<'_>, row: usize, out: &mut [u8], put: Put) -> Put
    ensures { let t = table.now in
        let bytes = identification_bytes t.text.now t.cells.now row in
        Puts bytes put out.old out.new result }
{
    let start = cells::cell_behind(table.cells, row, 1);
    let size = cells::size_behind(table.cells, row, 2);
    put_stretch(table.text, start, size, out, put)
}

// The identification of the object that a reference names.
fn put_reference(table: &Table<'_>, b: i64, out: &mut [u8], put: Put) -> Put
    ensures { let t = table.now in
        let row = get_or t.rows.now (nat_abs b) 0 in
        let bytes = identification_bytes t.text.now t.cells.now row in
        Puts bytes put out.old out.new result }
{
    let row = row_of(table.rows, cells::size_of(b));
    put_identification(table, row, out, put)
}

// "Text: 1 plus its length, its start"
fn put_text(text: &[u8], a: i64, b: i64, out: &mut [u8], put: Put) -> Put
    ensures { let bytes = stretch_bytes text.now b (nat_abs a - 1) in
        Puts bytes put out.old out.new result }
{
    put_stretch(text, b, cells::size_of(a).saturating_sub(1), out, put)
}

// A pair that is not undefined.
fn put_value(table: &Table<'_>, kind: Kind, a: i64, b: i64, out: &mut [u8], put: Put) -> Put
    requires { good_type (of_kind kind) ≡ true }
    ensures { let t = table.now in
        let bytes = type_bytes t.text.now (content t) (of_kind kind) a b in
        Puts bytes put out.old out.new result }
{
    match kind {
        Kind::Reference(_) => put_reference(table, b, out, put),
        Kind::Number(component) => values::put_number(out, put, component.decimals, b),
        Kind::Text(_) => put_text(table.text, a, b, out, put),
        Kind::Date => values::put_date(out, put, b),
        Kind::Enumeration(_) => values::put_leaf(out, put, b),
        Kind::Coordinate(_) | Kind::Line(_, _) => put_nothing(put),
    }
}

// "the single undefined byte in every undefined field"
fn put_undefined(undefined: u8, out: &mut [u8], put: Put) -> Put
    ensures { Puts (0x20 ∷ undefined ∷ []) put out.old out.new result }
{
    let field = [undefined];
    put_field(out, put, &field)
}

// A value behind a space.
fn put_value_field(table: &Table<'_>, kind: Kind, a: i64, b: i64, out: &mut [u8], put: Put) -> Put
    requires { good_type (of_kind kind) ≡ true }
    ensures { let t = table.now in
        let bytes = type_bytes t.text.now (content t) (of_kind kind) a b in
        Puts (0x20 ∷ bytes) put out.old out.new result }
{
    let gap = put_byte(out, put, b' ');
    put_value(table, kind, a, b, out, gap)
}

// The field of a pair, behind a space.
fn put_pair(
    table: &Table<'_>,
    undefined: u8,
    kind: Kind,
    cell: usize,
    out: &mut [u8],
    put: Put,
) -> Put
    requires { good_type (of_kind kind) ≡ true }
    ensures { let t = table.now in
        let a = get_or (drop cell t.cells.now) 0 (pos 0) in
        let b = get_or (drop cell t.cells.now) 1 (pos 0) in
        let field = field_bytes undefined a (type_bytes t.text.now (content t) (of_kind kind) a b) in
        Puts (0x20 ∷ field) put out.old out.new result }
{
    let a = cells::cell_behind(table.cells, cell, 0);
    if a == 0 {
        return put_undefined(undefined, out, put);
    }
    let b = cells::cell_behind(table.cells, cell, 1);
    put_value_field(table, kind, a, b, out, put)
}

// The field of a coordinate's component, behind a space.
fn put_component(
    cells: &[i64],
    undefined: u8,
    decimals: u8,
    cell: usize,
    out: &mut [u8],
    put: Put,
) -> Put
    requires { decimals ≤ 9 }
    ensures { let a = get_or (drop cell cells.now) 0 (pos 0) in
        let b = get_or (drop cell cells.now) 1 (pos 0) in
        let field = field_bytes undefined a (number_bytes decimals b) in
        Puts (0x20 ∷ field) put out.old out.new result }
{
    if cells::size_behind(cells, cell, 0) == 0 {
        return put_undefined(undefined, out, put);
    }
    let b = cells::cell_behind(cells, cell, 1);
    values::put_number_field(out, put, decimals, b)
}

// The fields of a coordinate.
fn put_components(
    cells: &[i64],
    undefined: u8,
    components: Components,
    cell: usize,
    out: &mut [u8],
    put: Put,
) -> Put
    requires good { good_components (components_of components) ≡ true }
    requires cell_bound { cell + 6 < 2 ^ 64 }
    ensures { let cs = drop cell cells.now in
        let fields = component_fields undefined (components_of components) cs in
        Puts (spaced fields) put out.old out.new result }
{
    let mut all = put_nothing(put);
    for i in 0..components.count {
        let decimals = components.items[i].decimals;
        all = put_component(cells, undefined, decimals, cell + 2 * i, out, all);
    }
    all
}

// The fields of an attribute's pairs, the first of which is at this cell.
pub(crate) fn put_attribute(
    table: &Table<'_>,
    undefined: u8,
    attribute: Attribute,
    cell: usize,
    out: &mut [u8],
    put: Put,
) -> Put
    requires good { good_type (type_of attribute) ≡ true }
    requires cell_bound { cell + 6 < 2 ^ 64 }
    ensures { let t = table.now in
        let pairs = pairs_of_type attribute.optional (type_of attribute) in
        let fields = pair_fields undefined t.text.now (content t) pairs (drop cell t.cells.now) in
        Puts (spaced fields) put out.old out.new result }
{
    match attribute.kind {
        Kind::Coordinate(components) => {
            put_components(table.cells, undefined, components, cell, out, put)
        }
        Kind::Line(_, _) => put_nothing(put),
        _ => put_pair(table, undefined, attribute.kind, cell, out, put),
    }
}
