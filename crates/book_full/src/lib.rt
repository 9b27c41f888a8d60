//! Examples for the book, filled to the last circuit and to the last channel.
#![tactic(auto)]

#[cfg(test)]
mod circuits;
#[cfg(test)]
mod filling;
#[cfg(test)]
mod hands;
