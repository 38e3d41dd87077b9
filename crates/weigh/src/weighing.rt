ghost use Rattle.std.specs.Prelude.{◌≡◌, ℕ, ◌<◌, ◌≤◌, slice_index};

mod judging;
mod making;
mod sums;

// The largest weight of a place.
pub const MOST_WEIGHT: u16 = 1000;

// A weight for each of 1 to 16 places. No weight is 0, so nothing that receives a weighing tests for it; what is past the last place is 0.
#[derive(Clone, Copy, Debug, PartialEq, Eq)]
pub struct Weighing {
    weights: [u16; 16],
    len: u32,
    ghost size: { (1 ≤ len) × (len ≤ 16) },
    ghost range: { (k : ℕ) → k < len → (1 ≤ slice_index weights k) × (slice_index weights k ≤ 1000) },
    ghost blank: { (k : ℕ) → len ≤ k → slice_index weights k ≡ 0 },
}
