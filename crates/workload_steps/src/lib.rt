#![tactic(auto)]
//! What the callers of the workloads over threads do: `steps` has which calls a caller makes, `places` where the common file is read, `scale`
//! how large all is, `numbers` a generator and bytes that it made, and `tally` what was answered.
//!
//! Floor: outside.

mod numbers;
mod places;
mod scale;
mod steps;
mod tally;

pub use numbers::{Bytes, Numbers};
pub use scale::{CALLERS, Plan, Scale};
pub use steps::{Kind, MAX_COUNT, Step, Steps};
pub use tally::Tally;
