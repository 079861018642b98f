//! Why a file, a record or a call is refused: the layer, the number and the place of each refusal.

#![tactic(auto)]

mod answer;
mod causes;
mod refusal;
mod words;

pub use answer::Refusal;
pub use causes::{FileFault, MonthFault, RecordFault, Section};
