//! The search for a cheapest semilightpath, by any kind of cost, over what can be used at a moment.
#![tactic(auto)]

mod arrival;
mod cheapest;
mod costs;
mod entry;
pub mod found;
mod frontier;
mod goal;
pub mod label;
pub mod path;
mod relax;
mod run;
mod table;
mod work;

pub use cheapest::search;
