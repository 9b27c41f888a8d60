//! Orders that are offered and settled in one: lit, or priced alone.
#![tactic(auto)]

mod settling;

pub use settling::{light, price};
