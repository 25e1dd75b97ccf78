// The pairs of a row: "in model order one pair per attribute, per component for coordinates".
ghost use Rattle.std.specs.Prelude.{◌≡◌, true, List, ℕ, ◌+◌, ◌*◌, ◌-◌, ◌≤◌, nat_abs, length, drop};
ghost use Rattle.meaning.specs.Bytes.{choose};
ghost use Rattle.meaning.specs.Model.{Coordinate, Number, Text};
ghost use Rattle.meaning.specs.Row.{OfLine, component_pairs, pairs_of_type};
ghost use Rattle.meaning.specs.Reading.{Content};
ghost use Rattle.meaning.specs.Judge.{cell_is, judge_undefined, judge_date, judge_leaf, judge_reference, judge_value};
ghost use Rattle.meaning.specs.Judge.{judge_component, judge_line, fine_if, judge_pair, judge_pairs};
ghost use Rattle.model_records.specs.Components.{component_of, components_of};
ghost use Rattle.model_records.specs.Records.{model_at, pairs_at};
ghost use Rattle.model_records.specs.Attributes.{of_kind, type_of, Counted};
ghost use Rattle.write_judge.specs.Meant.{fine_of, judge_second};
ghost use Rattle.table.specs.Contents.{content};
ghost use Rattle.model_records.specs.AtRecord.{AttributesHere};

use crate::{cells, points};
use model_records::places::Records;
use model_records::{Attribute, Component, Components, Kind, LineAttribute, counts};
use table::Table;

// "Date: eight digits", and a day that exists.
fn judge_date(b: i64) -> bool
    ensures { result ≡ judge_date b }
{
    if cells::is_below(b, 0) {
        return false;
    }
    if !cells::is_below(b, 100000000) {
        return false;
    }
    let n = table::cells::size_of(b) as u64;
    value_read::dates::is_day(n / 10000, n / 100 % 100, n % 100)
}

// "Enumeration: 1 to 18 digits, below the count of leaves"
fn judge_leaf(leaves: usize, b: i64) -> bool
    ensures { result ≡ judge_leaf leaves b }
{
    let negative = cells::is_below(b, 0);
    let small = cells::is_below(b, 1000000000000000000);
    !negative & small & cells::is_below(b, leaves)
}

// "Reference: 1 and the number of the object", which is of the target's table.
fn judge_reference(table: &Table<'_>, target: usize, b: i64) -> bool
    ensures { result ≡ judge_reference (content table.now) target b }
{
    if cells::is_below(b, 0) {
        return false;
    }
    let n = table::cells::size_of(b);
    if table.rows.len() <= n {
        return false;
    }
    let row = table.rows[n] as usize;
    if table.cells.len() <= row {
        return false;
    }
    cells::is_number(table.cells[row], target)
}

// "Text: 1 plus length, start"
fn judge_text(table: &Table<'_>, undefined: u8, longest: usize, a: i64, b: i64) -> bool
    ensures { result ≡ judge_value undefined table.now.text.now (content table.now) (Text longest) a b }
{
    if cells::is_below(a, 2) {
        return false;
    }
    let size = table::cells::size_of(a) - 1;
    if longest < size {
        return false;
    }
    cells::judge_stretch(table.text, undefined, b, size)
}

// The second cell of a pair that begins with 1, by the type of its attribute.
fn judge_second(kind: Kind, table: &Table<'_>, b: i64) -> bool
    ensures { result ≡ judge_second (content table.now) (of_kind kind) b }
{
    match kind {
        Kind::Reference(target) => judge_reference(table, target, b),
        Kind::Number(component) => value_read::numbers::is_within(component, b),
        Kind::Date => judge_date(b),
        Kind::Enumeration(leaves) => judge_leaf(leaves, b),
        _ => false,
    }
}

// A pair that is not undefined, of an attribute with one field of its own.
fn judge_value(kind: Kind, table: &Table<'_>, undefined: u8, a: i64, b: i64) -> bool
    ensures { let t = table.now in
        result ≡ judge_value undefined t.text.now (content t) (of_kind kind) a b }
{
    match kind {
        Kind::Text(longest) => judge_text(table, undefined, longest, a, b),
        _ => cells::is_number(a, 1) & judge_second(kind, table, b),
    }
}

// "Undefined is 0 0", where an attribute may be undefined.
fn judge_undefined(optional: bool, b: i64) -> bool
    ensures { result ≡ judge_undefined optional b }
{
    optional & cells::is_number(b, 0)
}

// The pair of an attribute with one field of its own.
fn judge_own(attribute: Attribute, table: &Table<'_>, undefined: u8, a: i64, b: i64) -> bool
    ensures { let t = table.now in
        result ≡ choose (cell_is a 0) (judge_undefined attribute.optional b)
        (judge_value undefined t.text.now (content t) (type_of attribute) a b) }
{
    if cells::is_number(a, 0) {
        judge_undefined(attribute.optional, b)
    } else {
        judge_value(attribute.kind, table, undefined, a, b)
    }
}

// A coordinate's further component is undefined exactly where the first one is.
fn judge_component(before: bool, component: Component, a: i64, b: i64) -> bool
    ensures { result ≡ judge_component before (component_of component) a b }
{
    if before {
        cells::is_number(a, 1) & value_read::numbers::is_within(component, b)
    } else {
        cells::is_number(a, 0) & cells::is_number(b, 0)
    }
}

// The pair of a coordinate's first component.
fn judge_first(optional: bool, component: Component, a: i64, b: i64) -> bool
    ensures { (undefined : ℕ) (text : List ℕ) (c : Content) →
        result ≡ choose (cell_is a 0) (judge_undefined optional b)
        (judge_value undefined text c (Number (component_of component)) a b) }
{
    if cells::is_number(a, 0) {
        judge_undefined(optional, b)
    } else {
        judge_component(true, component, a, b)
    }
}

// The pair at a cell of a coordinate's third component, where it has one.
fn judge_third(components: Components, defined: bool, cells: &[i64], cell: usize) -> bool
    requires counted { (2 ≤ components.count) × (components.count ≤ 3) }
    requires count_in_bounds { cell + 2 * (components.count - 2) ≤ length cells.now }
    ensures { (undefined k : ℕ) (text : List ℕ) (c : Content) →
        fine_if result k ≡ judge_pairs undefined text c defined k (component_pairs (drop 2 (components_of components)))
        (drop cell cells.now) }
{
    let items = components.items;
    if components.count == 3 {
        judge_component(defined, items[2], cells[cell], cells[cell + 1])
    } else {
        true
    }
}

// The pairs from a cell on of the components behind a coordinate's first one.
fn judge_further(components: Components, defined: bool, cells: &[i64], cell: usize) -> bool
    requires counted { (2 ≤ components.count) × (components.count ≤ 3) }
    requires count_in_bounds { cell + 2 * (components.count - 1) ≤ length cells.now }
    ensures { (undefined k : ℕ) (text : List ℕ) (c : Content) →
        fine_if result k ≡ judge_pairs undefined text c defined k (component_pairs (drop 1 (components_of components)))
        (drop cell cells.now) }
{
    let items = components.items;
    let second = judge_component(defined, items[1], cells[cell], cells[cell + 1]);
    let third = judge_third(components, defined, cells, cell + 2);
    second & third
}

// The pairs of a coordinate from a cell on.
fn judge_coordinate(optional: bool, components: Components, cells: &[i64], cell: usize) -> bool
    requires counted { (2 ≤ components.count) × (components.count ≤ 3) }
    requires count_in_bounds { cell + 2 * components.count ≤ length cells.now }
    ensures { (undefined k : ℕ) (text : List ℕ) (c : Content) →
        fine_if result k
        ≡ judge_pairs undefined text c true k (pairs_of_type optional (Coordinate (components_of components)))
        (drop cell cells.now) }
{
    let items = components.items;
    let first = judge_first(optional, items[0], cells[cell], cells[cell + 1]);
    let undefined = cells::is_number(cells[cell], 0);
    let further = judge_further(components, !undefined, cells, cell + 2);
    first & further
}

// "Line: 1 plus its count of points, its first point", which is the next one.
fn judge_drawn(
    line: LineAttribute,
    table: &Table<'_>,
    first: usize,
    a: i64,
    b: i64,
) -> Option<usize>
    requires counted { (2 ≤ line.components.count) × (line.components.count ≤ 3) }
    requires first_in_bounds { 4 * first ≤ length table.now.points.now }
    ensures { fine_of result
        ≡ fine_if (judge_line (content table.now) first line.forms (components_of line.components) a b)
        (first + (nat_abs a - 1)) }
{
    if cells::is_below(a, 2) {
        return None;
    }
    if !cells::is_number(b, first) {
        return None;
    }
    let n = table::cells::size_of(a) - 1;
    if table.points.len() / 4 - first < n {
        return None;
    }
    let fine = points::judge_points(line.forms, line.components, &table.points[4 * first..], n);
    fine.then_some(first + n)
}

// The pair of a line attribute.
fn judge_line(line: LineAttribute, table: &Table<'_>, first: usize, a: i64, b: i64) -> Option<usize>
    requires counted { (2 ≤ line.components.count) × (line.components.count ≤ 3) }
    requires first_in_bounds { 4 * first ≤ length table.now.points.now }
    ensures { (undefined : ℕ) →
        fine_of result ≡ judge_pair undefined table.now.text.now (content table.now) true first
        (OfLine line.optional line.forms (components_of line.components)) a b }
{
    if cells::is_number(a, 0) {
        judge_undefined(line.optional, b).then_some(first)
    } else {
        judge_drawn(line, table, first, a, b)
    }
}

// The pairs of an attribute from a cell on.
fn judge_attribute(
    attribute: Attribute,
    table: &Table<'_>,
    undefined: u8,
    cell: usize,
    first: usize,
) -> Option<usize>
    requires counted { Counted attribute.kind }
    requires attribute_in_bounds { cell + 2 * length (pairs_of_type attribute.optional (type_of attribute))
        ≤ length table.now.cells.now }
    requires first_in_bounds { 4 * first ≤ length table.now.points.now }
    ensures { let t = table.now in
        fine_of result ≡ judge_pairs undefined t.text.now (content t) true first
        (pairs_of_type attribute.optional (type_of attribute)) (drop cell t.cells.now) }
{
    let optional = attribute.optional;
    let cells = table.cells;
    match attribute.kind {
        Kind::Coordinate(components) => {
            judge_coordinate(optional, components, cells, cell).then_some(first)
        }
        Kind::Line(forms, components) => {
            let line = LineAttribute {
                optional,
                forms,
                components,
            };
            judge_line(line, table, first, cells[cell], cells[cell + 1])
        }
        _ => judge_own(attribute, table, undefined, cells[cell], cells[cell + 1]).then_some(first),
    }
}

// The pairs of a row from a cell on, behind so many points; its table's attribute records begin at the byte `first`.
// What is answered, here and above, is the count of points before what follows, where each pair is fine.
pub(crate) fn judge_pairs(
    model: &Records<'_>,
    first: usize,
    table: &Table<'_>,
    cell: usize,
    k: usize,
) -> Option<usize>
    requires attributes_here { let bytes = model.now.bytes.now in AttributesHere (model_at bytes) bytes first }
    requires first_in_bounds { cell + 2 * length (pairs_at model.now.bytes.now first)
        ≤ length table.now.cells.now }
    requires k_in_bounds { 4 * k ≤ length table.now.points.now }
    ensures judged { let t = table.now in
        fine_of result ≡ judge_pairs model.now.shape.undefined t.text.now (content t) true k
        (pairs_at model.now.bytes.now first) (drop cell t.cells.now) }
    ensures within { (n : ℕ) → result ≡ Some n → 4 * n ≤ length table.now.points.now }
{
    let mut here = cell;
    let mut before = k;
    for at in model_records::attribute_records(model.bytes, first) {
        let attribute = model_records::attribute_at(model.bytes, at);
        before = judge_attribute(attribute, table, model.shape.undefined, here, before)?;
        let counts = counts::count_of(model.bytes[at + 5]);
        here += 2 * counts.pairs;
    }
    Some(before)
}
