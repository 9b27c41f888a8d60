//! A week at a book: calls by all three kinds of cost, of which the book's tables keep one account.
#![tactic(auto)]

mod living;
pub mod outcome;
#[cfg(test)]
mod sample;
mod settling;
pub mod told;
pub mod trip;

pub use living::week;
