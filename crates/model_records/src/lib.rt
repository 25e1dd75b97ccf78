//! A good model's records: kinds, names, attributes with their type and components by value.
#![tactic(auto)]

ghost use Rattle.std.specs.Prelude.{◌≡◌, ◌+◌, ◌≤◌, length, drop, eqb, leb};
ghost use Rattle.meaning.specs.Bytes.{choose, byte_at};
ghost use Rattle.meaning.specs.Model.{flag_of};
ghost use Rattle.meaning.specs.Check.{good, check_model};
ghost use Rattle.model_records.specs.Records.{kind_at, payload_at, next_at, model_at};
ghost use Rattle.meaning.specs.Model as meaning;
ghost use Rattle.model_records.specs.Attributes.{of_kind, Counted, ParametersFit};
ghost use Rattle.model_records.specs.Attributes.{PayloadAttribute, RecordAttribute, RecordLine};
ghost use Rattle.model_records.specs.AtRecord.{AttributeHere};

pub mod attributes;
pub mod counts;
pub mod numbers;
pub mod places;
pub mod records;

pub use attributes::{Attribute, Component, Components, Kind, LineAttribute};
pub use records::attribute_records;

// The kinds of records.
pub const TRANSFER: u16 = 1;

pub const MODEL: u16 = 2;

pub const TOPIC: u16 = 3;

pub const TABLE: u16 = 4;

pub const ATTRIBUTE: u16 = 5;

pub const END: u16 = 6;

// The types that a record's byte is tested for where its attribute is not decoded.
pub const REFERENCE: u8 = 1;

pub const LINE: u8 = 8;

// Whether a record at a byte fits the model: its four bytes, and its payload.
pub fn fits_at(model: &[u8], at: usize) -> bool
    ensures { result ≡ leb (next_at model.now at) (length model.now) }
{
    let n = model.len();
    if n < 4 {
        return false;
    }
    let last = n - 4;
    if last < at {
        return false;
    }
    numbers::u16_at(model, at) as usize <= last - at
}

// The kind of the record at a byte.
pub fn kind_at(model: &[u8], at: usize) -> u16
    requires { at + 4 ≤ length model.now }
    ensures { result ≡ kind_at model.now at }
{
    numbers::u16_at(model, at + 2)
}

// The byte of the record behind it.
pub fn next_at(model: &[u8], at: usize) -> usize
    requires { at + 4 ≤ length model.now }
    ensures { result ≡ next_at model.now at }
{
    at + 4 + numbers::u16_at(model, at) as usize
}

// The first record of the topics: behind the transfer record and the model record.
pub(crate) fn first_record(model: &[u8]) -> usize
    requires in_bounds { 4 ≤ length model.now }
    requires model_in_bounds { next_at model.now 0 + 4 ≤ length model.now }
    ensures { result ≡ next_at model.now (next_at model.now 0) }
{
    let second = next_at(model, 0);
    next_at(model, second)
}

// A good model's undefined byte.
pub(crate) fn undefined_of(model: &[u8]) -> u8
    requires { check_model model.now ≡ good (model_at model.now) }
    ensures { result ≡ (model_at model.now).undefined }
{
    model[5]
}

// A good model's mark.
pub fn mark_of(model: &[u8]) -> u8
    requires { check_model model.now ≡ good (model_at model.now) }
    ensures { result ≡ (model_at model.now).mark }
{
    model[6]
}

// Whether the table or attribute of the record at a byte is optional.
pub(crate) fn optional_at(model: &[u8], at: usize) -> bool
    requires at_bound { at + 5 ≤ next_at model.now at }
    requires at_in_bounds { next_at model.now at ≤ length model.now }
    ensures { result ≡ flag_of (payload_at model.now at) }
{
    model[at + 4] == 1
}

// A line's count of components, 2 or 3.
pub fn read_dimension(b: u8) -> usize
    ensures { result ≡ choose (eqb b 3) 3 2 }
{
    if b == 3 { 3 } else { 2 }
}

// The type of this number, 1 to 8, with its parameters.
fn read_kind(number: u8, parameters: &[u8]) -> Kind
    requires { ParametersFit number parameters.now }
    ensures meant { of_kind result ≡ meaning.type_of number parameters.now }
    ensures counted { Counted result }
{
    match number {
        1 => Kind::Reference(numbers::u16_at(parameters, 0) as usize),
        2..=3 => Kind::Coordinate(numbers::read_components(parameters, number as usize)),
        4 => Kind::Number(numbers::read_component(parameters)),
        5 => Kind::Text(numbers::u16_at(parameters, 0) as usize),
        6 => Kind::Date,
        7 => Kind::Enumeration(numbers::u16_at(parameters, 0) as usize),
        _ => Kind::Line(
            parameters[0] as usize,
            numbers::read_components(&parameters[2..], read_dimension(parameters[1])),
        ),
    }
}

// The attribute of a payload whose type is one of 1 to 8 and whose parameters are all there.
pub fn attribute_of(payload: &[u8]) -> Attribute
    requires in_bounds { 2 ≤ length payload.now }
    requires parameters_fit { ParametersFit (byte_at payload.now 1) (drop 2 payload.now) }
    ensures { PayloadAttribute payload.now result }
{
    Attribute {
        optional: payload[0] == 1,
        kind: read_kind(payload[1], &payload[2..]),
    }
}

// The attribute of the record at a byte.
pub fn attribute_at(model: &[u8], at: usize) -> Attribute
    requires { AttributeHere model.now at }
    ensures { RecordAttribute model.now at result }
{
    let next = next_at(model, at);
    attribute_of(&model[at + 4..next])
}

// The line attribute of the record at a byte.
pub fn line_at(model: &[u8], at: usize) -> LineAttribute
    requires attribute { AttributeHere model.now at }
    requires line { byte_at (payload_at model.now at) 1 ≡ 8 }
    ensures { RecordLine model.now at result }
{
    let attribute = attribute_at(model, at);
    let Kind::Line(forms, components) = attribute.kind else {
        unreachable!();
    };
    LineAttribute {
        optional: attribute.optional,
        forms,
        components,
    }
}
