// What can be refused, by the layer that finds it. Each refusal has a number, a slot and a spot.
#![tactic(auto)]

mod answers;
mod refusals;

pub use refusals::{Layer, Refusal, SheetRefusal};
