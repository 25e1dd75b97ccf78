// Little-endian numbers in a slice of bytes, and components.
ghost use Rattle.std.specs.Prelude.{◌≡◌, ◌+◌, ◌*◌, ◌≤◌, length};
ghost use Rattle.meaning.specs.Bytes.{byte_at, u16_at, u32_at, u64_at, i64_at, twos};
ghost use Rattle.meaning.specs.Model.{component_of};
ghost use Rattle.meaning.specs.Model as meaning;
ghost use Rattle.model_records.specs.Components.{components_of, declared_of};

use crate::attributes::{Component, Components};

// The byte at an index, 0 behind the end.
pub fn byte_at(s: &[u8], at: usize) -> u8
    ensures { result ≡ byte_at s.now at }
{
    s.get(at).copied().unwrap_or(0)
}

pub fn u16_at(s: &[u8], at: usize) -> u16
    requires { at + 2 ≤ length s.now }
    ensures { result ≡ u16_at s.now at }
{
    u16::from_le_bytes([s[at], s[at + 1]])
}

pub fn u32_at(s: &[u8], at: usize) -> u32
    requires { at + 4 ≤ length s.now }
    ensures { result ≡ u32_at s.now at }
{
    u32::from_le_bytes([s[at], s[at + 1], s[at + 2], s[at + 3]])
}

fn u64_at(s: &[u8], at: usize) -> u64
    requires { at + 8 ≤ length s.now }
    ensures { result ≡ u64_at s.now at }
{
    u64::from_le_bytes([
        s[at],
        s[at + 1],
        s[at + 2],
        s[at + 3],
        s[at + 4],
        s[at + 5],
        s[at + 6],
        s[at + 7],
    ])
}

fn i64_at(s: &[u8], at: usize) -> i64
    requires { at + 8 ≤ length s.now }
    ensures { result ≡ i64_at s.now at }
{
    u64_at(s, at).cast_signed()
}

// "A component is decimals (u8, 0 to 9), least and greatest value (i64 each)": the one that the parameters begin with.
pub(crate) fn read_component(parameters: &[u8]) -> Component
    requires { 17 ≤ length parameters.now }
    ensures { result ≡ declared_of (component_of parameters.now) }
{
    Component {
        decimals: parameters[0],
        least: i64_at(parameters, 1),
        greatest: i64_at(parameters, 9),
    }
}

// The first n components among the parameters, by value.
pub fn read_components(parameters: &[u8], n: usize) -> Components
    requires n_bound { n ≤ 3 }
    requires n_in_bounds { 17 * n ≤ length parameters.now }
    ensures count { result.count ≡ n }
    ensures meant { components_of result ≡ meaning.components_of n parameters.now }
{
    let none = Component {
        decimals: 0,
        least: 0,
        greatest: 0,
    };
    let mut items = [none; 3];
    for i in 0..n {
        items[i] = read_component(&parameters[17 * i..]);
    }
    Components { count: n, items }
}
