ghost use Rattle.std.specs.Prelude.{◌≡◌, ℕ, ◌*◌, ◌≤◌, slice_index};

mod arcs;
mod feeding;
mod takers;
mod units;

pub use arcs::first_heavy;

// The most places and moves that a plan can have, and the largest weight of an arc.
pub const MOST_PLACES: u32 = 16;

pub const MOST_MOVES: u32 = 32;

pub const MOST_ARC_WEIGHT: u16 = 1000;

// A plan (a weighted Petri net). `takes` and `gives` lie move by move and place by place; what is past the last move is 0.
#[derive(Debug, Drop, PartialEq, Eq)]
pub struct Plan {
    places: u32,
    moves: u32,
    takes: [u16; 512],
    gives: [u16; 512],
    ghost size: { (1 ≤ places) × (places ≤ 16) × (1 ≤ moves) × (moves ≤ 32) },
    ghost light: { (k : ℕ) → (slice_index takes k ≤ 1000) × (slice_index gives k ≤ 1000) },
    ghost blank: { (k : ℕ) → moves * places ≤ k → (slice_index takes k ≡ 0) × (slice_index gives k ≡ 0) },
}
