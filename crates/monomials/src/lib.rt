// Monomials and their orders.
#![tactic(auto)]

mod equality;
mod graded;
mod lexicographic;
mod monomial;
mod operations;
mod order;
mod weighted;
mod weights;

pub use graded::Graded;
pub use lexicographic::Lexicographic;
pub use monomial::Monomial;
pub use order::MonomialOrder;
pub use weighted::Weighted;
pub use weights::Weights;
