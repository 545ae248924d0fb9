// Subjects: what polynomials are checked against.
#![tactic(auto)]

mod checking;
mod periodic;
mod points;
mod subject;

pub use checking::{Finding, check, polynomial_image};
pub use periodic::{PeriodicArray, count_cells};
pub use points::PointSet;
pub use subject::Subject;
