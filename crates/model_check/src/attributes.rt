// Attributes: the parameters of their types, judged.
ghost use Rattle.std.specs.Prelude.{◌≡◌, ◌+◌, ◌≤◌, ◌<◌, length, drop, take, leb, ◌&&◌, [], ◌∷◌};
ghost use Rattle.meaning.specs.Bytes.{all_of, byte_at};
ghost use Rattle.model_records.specs.Components.{components_of};
ghost use Rattle.meaning.specs.Model.{parameters_size};
ghost use Rattle.meaning.specs.Check.{is_dimension, good_components, good_type, is_type};
ghost use Rattle.meaning.specs.Check.{keeps_attribute};
ghost use Rattle.model_check.specs.Names.{names_of};
ghost use Rattle.model_records.specs.Attributes.{of_kind};
ghost use Rattle.model_check.specs.Attributes.{attributes_seen};

use crate::{names, rules};
use model_records::{Components, Kind, numbers};

// Where the parameters of an attribute's type end in its payload, and its name begins.
pub(crate) fn parameters_end(payload: &[u8]) -> usize
    ensures { result ≡ 2 + parameters_size (byte_at payload.now 1) (drop 2 payload.now) }
{
    let t = numbers::byte_at(payload, 1);
    match t {
        2 => 36,
        3 => 53,
        4 => 19,
        6 => 2,
        8 => 4 + 17 * model_records::read_dimension(numbers::byte_at(payload, 3)),
        _ => 4,
    }
}

// "two or three components"
fn is_dimension(n: usize) -> bool
    ensures { result ≡ is_dimension n }
{
    (n == 2) | (n == 3)
}

// The components of a coordinate or a line: two or three, and each good.
fn are_coordinates(components: Components) -> bool
    ensures { let cs = components_of components in
        result ≡ all_of (is_dimension (length cs) ∷ good_components cs ∷ []) }
{
    is_dimension(components.count) & rules::are_components(components)
}

// A line's forms: "1 straight, 2 arc, 3 both".
fn is_line(forms: usize, rest: bool) -> bool
    ensures { result ≡ (leb 1 forms && leb forms 3 && rest) }
{
    (1 <= forms) & (forms <= 3) & rest
}

// Whether the parameters of a type keep their rules.
fn is_good(kind: Kind) -> bool
    ensures { result ≡ good_type (of_kind kind) }
{
    match kind {
        Kind::Reference(_) => true,
        Kind::Coordinate(components) => are_coordinates(components),
        Kind::Number(component) => rules::is_component(component),
        Kind::Text(longest) => 1 <= longest,
        Kind::Date => true,
        Kind::Enumeration(leaves) => 1 <= leaves,
        Kind::Line(forms, components) => is_line(forms, are_coordinates(components)),
    }
}

// "Types": whether the type's number and parameters keep their rules. The parameters are all there.
fn is_type(payload: &[u8]) -> bool
    requires { 2 + parameters_size (byte_at payload.now 1) (drop 2 payload.now) ≤ length payload.now }
    ensures { result ≡ is_type (byte_at payload.now 1) (drop 2 payload.now) }
{
    match payload[1] {
        1..=7 => is_good(model_records::attribute_of(payload).kind),
        8 => is_dimension(payload[3] as usize) & is_good(model_records::attribute_of(payload).kind),
        _ => false,
    }
}

// "5 attribute: optional (0 or 1), type, parameters, name of 1 to 24 bytes", "64 attributes in a table"
pub(crate) fn keeps_attribute(model: &[u8], payload: &[u8], seen: &[usize]) -> bool
    ensures { result
        ≡ keeps_attribute payload.now
        (attributes_seen (names_of model.now seen.now)) }
{
    let start = parameters_end(payload);
    if payload.len() <= start {
        return false;
    }
    let free = names::is_free(model, &payload[start..], seen, seen.len(), 64);
    rules::is_flag(payload) & is_type(payload) & free
}
