//! Examples of the search: small networks, the largest there are, and what is refused.
#![tactic(auto)]

#[cfg(test)]
mod asked;
#[cfg(test)]
mod examples;
#[cfg(test)]
mod largest;
#[cfg(test)]
mod late;
#[cfg(test)]
mod sketch;
