// Weighings (weight vectors over the places of a plan), the sums under them, and when they balance a plan.
#![tactic(auto)]

mod imbalance;
mod weighing;

pub use imbalance::Imbalance;
pub use weighing::{MOST_WEIGHT, Weighing};
