// Plans (weighted Petri nets), counts (markings), and which moves are fed.
#![tactic(auto)]

mod counts;
mod plan;
mod read_plan;

pub use counts::Counts;
pub use plan::{MOST_ARC_WEIGHT, MOST_MOVES, MOST_PLACES, Plan, first_heavy};
pub use read_plan::ReadPlan;
