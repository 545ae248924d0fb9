// Fields of codes: the trait, the residues by a prime modulus, the binary fields, and powers in any field.
#![tactic(auto)]

mod binary;
mod codes;
mod exponentiation;
mod field;
mod residue;

pub use binary::Binary;
pub use codes::first_outside;
pub use exponentiation::power;
pub use field::{Field, ListedField};
pub use residue::Residue;
