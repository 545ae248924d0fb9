// Refusals: one enum for each layer, and the ground, the place and the layer that each case answers.
#![tactic(auto)]

mod arithmetic;
mod file;
mod refusal;
mod subject;
mod worksheet;

pub use arithmetic::ArithmeticFault;
pub use file::{FileFault, RecordFault};
pub use refusal::{Layer, Refusal};
pub use subject::SubjectFault;
pub use worksheet::WorksheetFault;
