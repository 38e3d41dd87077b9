ghost use Rattle.std.specs.Prelude.{◌≡◌, ℕ, ◌≤◌, false, slice_index_or};

mod members;

// A set of some of 1 to 16 places. None past the last place is in it.
#[derive(Clone, Copy, Debug, PartialEq, Eq)]
pub struct PlaceSet {
    members: [bool; 16],
    len: u32,
    ghost size: { (1 ≤ len) × (len ≤ 16) },
    ghost blank: { (k : ℕ) → len ≤ k → slice_index_or members k false ≡ false },
}
