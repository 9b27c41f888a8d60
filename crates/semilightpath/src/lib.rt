//! Semilightpaths: what is one, over what can be used at a moment, and what it costs.
#![tactic(auto)]

pub mod fares;
pub mod path;
pub mod point;
pub mod step;
