// A board in units of a plan, on any board below it.
#![tactic(auto)]

mod parts;
mod scale;
mod units_board;

pub use parts::InUnits;
pub use units_board::UnitsBoard;
