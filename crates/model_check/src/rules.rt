// Rules of a record by itself: bytes, names, flags, components.
ghost use Rattle.std.specs.Prelude.{◌≡◌, not, [], ◌∷◌, ◌≤◌, eqb, length};
ghost use Rattle.std.specs.Int.Signed.{lt_z};
ghost use Rattle.meaning.specs.Bytes.{every, all_of};
ghost use Rattle.meaning.specs.Check.{special, name_byte, is_name, is_flag, is_bound, good_component, good_components};
ghost use Rattle.meaning.specs.Check.{keeps_transfer, follows};
ghost use Rattle.model_records.specs.Components.{component_of, components_of};

use base::kinds;
use model_records::{ATTRIBUTE, Component, Components, END, MODEL, TABLE, TOPIC, TRANSFER};

// "lie in 21 to 7E hex, and are no letter, digit, + - . or /"
fn is_special(b: u8) -> bool
    ensures { result ≡ special b }
{
    match b {
        0x21..=0x2a | 0x2c..=0x2c | 0x3a..=0x40 | 0x5b..=0x60 | 0x7b..=0x7e => true,
        _ => false,
    }
}

// Letters, digits and _.
fn is_name_byte(b: u8) -> bool
    ensures { result ≡ name_byte b }
{
    match b {
        b'A'..=b'Z' | b'a'..=b'z' | b'0'..=b'9' | b'_'..=b'_' => true,
        _ => false,
    }
}

// No early end: `all` takes a quarter longer over long names.
fn every_name_byte(l: &[u8]) -> bool
    ensures { result ≡ every name_byte l.now }
{
    let mut all = true;
    for b in l {
        all &= is_name_byte(*b);
    }
    all
}

// "Names follow 000, 2.2.1.1": a letter, then letters, digits and _.
pub(crate) fn is_name(n: &[u8], longest: usize) -> bool
    ensures { result ≡ is_name longest n.now }
{
    if n.is_empty() {
        return false;
    }
    kinds::is_letter(n[0]) & every_name_byte(n) & (n.len() <= longest)
}

// "optional (0 or 1)"
pub(crate) fn is_flag(payload: &[u8]) -> bool
    ensures { result ≡ is_flag payload.now }
{
    !payload.is_empty() && payload[0] <= 1
}

// "Bounds lie strictly between -10^18 and 10^18"
fn is_bound(v: i64) -> bool
    ensures { result ≡ is_bound v }
{
    (-1000000000000000000 < v) & (v < 1000000000000000000)
}

// "Bounds lie strictly between -10^18 and 10^18, least at most greatest"
pub(crate) fn is_component(component: Component) -> bool
    ensures { result ≡ good_component (component_of component) }
{
    (component.decimals <= 9)
        & is_bound(component.least)
        & is_bound(component.greatest)
        & (component.least <= component.greatest)
}

// Whether each of the components is good.
pub(crate) fn are_components(components: Components) -> bool
    ensures { result ≡ good_components (components_of components) }
{
    components.items[..components.count]
        .iter()
        .all(|component| is_component(*component))
}

// "The three differ"
fn are_different(a: u8, b: u8, c: u8) -> bool
    ensures { result ≡ all_of (not (eqb a b) ∷ not (eqb a c) ∷ not (eqb b c) ∷ []) }
{
    (a != b) & (a != c) & (b != c)
}

// "1 transfer: blank, undefined and continuation byte, then a name of 1 to 63 bytes"
pub(crate) fn keeps_transfer(payload: &[u8]) -> bool
    ensures { result ≡ keeps_transfer payload.now }
{
    if payload.len() < 4 {
        return false;
    }
    let special = is_special(payload[0]) & is_special(payload[1]) & is_special(payload[2]);
    let different = are_different(payload[0], payload[1], payload[2]);
    special & different & is_name(&payload[3..], 63)
}

// May a record of this kind stand behind one of kind `before`, which is 0 for the first record?
pub(crate) fn may_follow(before: u16, kind: u16) -> bool
    ensures { result ≡ follows before kind }
{
    match before {
        0 => kind == TRANSFER,
        TRANSFER => kind == MODEL,
        MODEL => kind == TOPIC,
        TOPIC => kind == TABLE,
        TABLE => kind == ATTRIBUTE,
        ATTRIBUTE => (TOPIC <= kind) & (kind <= END),
        _ => false,
    }
}
