//! Examples for the book, opened and shut, over the sample network.
#![tactic(auto)]

#[cfg(test)]
mod opening;
