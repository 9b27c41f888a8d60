//! Prices by the tables of a book: the least cost with a span shut, and what a standing path costs.
#![tactic(auto)]

mod closed;
mod standing;
mod without;

pub use standing::price_standing;
pub use without::price_without;
