#![tactic(auto)]

// Worked examples of powers and point sets. The expected values were computed by another program, or by hand.
#[cfg(test)]
mod points;
#[cfg(test)]
mod powers;
#[cfg(test)]
mod refusals;
