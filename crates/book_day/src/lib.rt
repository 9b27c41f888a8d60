//! Examples of a day at the book of the sample network: what each call answers, what slips tell, what trials
//! come to, and what circuits are reckoned at.
#![tactic(auto)]

#[cfg(test)]
mod hands;
#[cfg(test)]
mod networks;
#[cfg(test)]
mod reckoning;
#[cfg(test)]
mod slips;
#[cfg(test)]
mod toll;
#[cfg(test)]
mod trials;
#[cfg(test)]
mod tried;
#[cfg(test)]
mod worked;
