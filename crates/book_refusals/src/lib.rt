//! Examples of what a book refuses: each number, the lowest of several, and nothing changed.
#![tactic(auto)]

#[cfg(test)]
mod asked;
#[cfg(test)]
mod hands;
#[cfg(test)]
mod marks;
#[cfg(test)]
mod numbers;
