ghost use Rattle.std.specs.Prelude.{◌≡◌, ℕ, ◌≤◌, slice_index};

mod reads;

// The counts of at most 16 places (a marking), as a value that nothing can change. What is past the last place is 0.
#[derive(Clone, Copy, Debug, PartialEq, Eq)]
pub struct Counts {
    held: [u32; 16],
    len: u32,
    ghost few: { len ≤ 16 },
    ghost blank: { (k : ℕ) → len ≤ k → slice_index held k ≡ 0 },
}
