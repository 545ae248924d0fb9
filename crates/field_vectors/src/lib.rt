#![tactic(auto)]

// Worked examples of the fields. The expected values were computed by another program, or by hand.
#[cfg(test)]
mod binary;
#[cfg(test)]
mod both;
#[cfg(test)]
mod residue;
