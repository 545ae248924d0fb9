#![tactic(auto)]

// Worked examples of periodic arrays and of checks against them. The expected values were computed by another program, or by hand.
#[cfg(test)]
mod checks;
#[cfg(test)]
mod images;
#[cfg(test)]
mod refusals;
