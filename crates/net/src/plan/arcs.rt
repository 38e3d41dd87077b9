// How a plan is made, and what it says of each move and place.
ghost use Rattle.std.specs.Prelude.{◌≡◌, ℕ, ◌+◌, ◌*◌, ◌<◌, ◌≤◌, length, IfSome, IsNone, MatchBool, MatchOption, slice_index};
ghost use Rattle.net.specs.Model.{net, spelled, cell_at, Lawful, Light, Same, IsRowAt};

use super::{MOST_ARC_WEIGHT, MOST_MOVES, MOST_PLACES, Plan};

// The index of the first number that is too large for a take or a give.
pub fn first_heavy(rows: &[u16]) -> Option<usize>
    ensures { MatchOption result ((k : ℕ) → k < length rows.now → slice_index rows.now k ≤ 1000) (λ i. (i < length rows.now) × (1000 < slice_index rows.now i) × ((k : ℕ) → k < i → slice_index rows.now k ≤ 1000)) }
{
    for i in 0..rows.len() {
        if rows[i] > MOST_ARC_WEIGHT {
            return Some(i);
        }
    }
    None
}

// Whether no number is too large for a take or a give.
fn all_light(rows: &[u16]) -> bool
    ensures { MatchBool result (Light rows.now) (Light rows.now → ⊥) }
{
    first_heavy(rows).is_none()
}

// The numbers, and then noughts.
fn padded(rows: &[u16]) -> [u16; 512]
    requires { length rows.now ≤ 512 }
    ensures { (k : ℕ) → slice_index result k ≡ slice_index rows.now k }
{
    let mut all = [0u16; 512];
    all[..rows.len()].copy_from_slice(rows);
    all
}

// Row t of rows of `width` numbers.
fn row_of(rows: &[u16], width: u32, t: u32) -> &[u16]
    requires { (t * width + width ≤ length rows.now) × ((t < 32) × (width ≤ 16)) }
    ensures { (length result.now ≡ width) × ((p : ℕ) → p < width → slice_index result.now p ≡ slice_index rows.now (t * width + p)) }
{
    let start = (t * width) as usize;
    &rows[start..start + width as usize]
}

// The number at a place of a row; 0 past its end, or where there is no row.
fn entry(row: Option<&[u16]>, p: u32) -> u16
    ensures some { IfSome row.entry (λ numbers. result ≡ slice_index numbers.now p) }
    ensures none { IsNone row.entry → result ≡ 0 }
{
    row.and_then(|numbers| numbers.get(p as usize))
        .copied()
        .unwrap_or(0)
}

impl Plan {
    // The plan whose takes and gives are these, move by move and place by place; none where a number is out of range.
    pub fn new(places: u32, moves: u32, takes: &[u16], gives: &[u16]) -> Option<Plan>
        ensures { MatchOption result (Lawful places moves takes.now gives.now → ⊥) (λ plan. Lawful places moves takes.now gives.now × Same (net plan) (spelled places moves takes.now gives.now)) }
    {
        if !(1..=MOST_PLACES).contains(&places) || !(1..=MOST_MOVES).contains(&moves) {
            return None;
        }
        let arcs = (moves * places) as usize;
        if takes.len() != arcs || gives.len() != arcs || !all_light(takes) || !all_light(gives) {
            return None;
        }
        Some(Plan {
            places,
            moves,
            takes: padded(takes),
            gives: padded(gives),
        })
    }

    pub fn places(&self) -> u32
        ensures value { result ≡ (net self.now).places }
        ensures range { (1 ≤ result) × (result ≤ 16) }
    {
        self.places
    }

    pub fn moves(&self) -> u32
        ensures value { result ≡ (net self.now).moves }
        ensures range { (1 ≤ result) × (result ≤ 32) }
    {
        self.moves
    }

    // The row of move t among takes or gives, absent where the plan has no such move.
    fn row<'a>(&self, arcs: &'a [u16; 512], t: u32) -> Option<&'a [u16]>
        ensures { IsRowAt (net self.now) (cell_at (net self.now).places arcs.now) t result }
    {
        (t < self.moves).then(|| row_of(arcs, self.places, t))
    }

    // What move t takes at each place, absent where the plan has no such move.
    pub fn takes_of(&self, t: u32) -> Option<&[u16]>
        ensures { IsRowAt (net self.now) (net self.now).takes t result }
    {
        self.row(&self.takes, t)
    }

    // What move t gives at each place, absent where the plan has no such move.
    pub fn gives_of(&self, t: u32) -> Option<&[u16]>
        ensures { IsRowAt (net self.now) (net self.now).gives t result }
    {
        self.row(&self.gives, t)
    }

    // What move t takes at place p: 0 where the plan has no such move or place.
    pub fn take(&self, t: u32, p: u32) -> u16
        ensures value { result ≡ (net self.now).takes t p }
        ensures absent { (net self.now).moves ≤ t → result ≡ 0 }
        ensures bound { result ≤ 1000 }
    {
        entry(self.takes_of(t), p)
    }

    // What move t gives at place p: 0 where the plan has no such move or place.
    pub fn give(&self, t: u32, p: u32) -> u16
        ensures value { result ≡ (net self.now).gives t p }
        ensures absent { (net self.now).moves ≤ t → result ≡ 0 }
        ensures bound { result ≤ 1000 }
    {
        entry(self.gives_of(t), p)
    }
}
