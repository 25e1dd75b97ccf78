//! Bytes and lists of bytes: their kinds, fields, comparing, parts and lent rooms; what is refused, by name.
#![tactic(auto)]

pub mod compare;
pub mod fields;
pub mod kinds;
pub mod parts;
pub mod reasons;
pub mod rooms;
