#![tactic(auto)]

// Vectors of the monomial orders and of the operations on monomials, worked out by hand.
#[cfg(test)]
mod operations;
#[cfg(test)]
mod orders;
#[cfg(test)]
mod refusals;
