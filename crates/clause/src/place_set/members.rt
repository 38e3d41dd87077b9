// How a set of places is made, and which places are in it.
ghost use Rattle.std.specs.Prelude.{◌≡◌, ◌≤◌, false, length, MatchOption, slice_index_or};
ghost use Rattle.clause.specs.Sets.{members_of, member_numbers, AreMembers};

use super::PlaceSet;
use net::MOST_PLACES;

impl PlaceSet {
    // The set of the places with a 1; none unless there are 1 to 16 numbers, each 0 or 1.
    pub fn from_numbers(numbers: &[u16]) -> Option<PlaceSet>
        ensures { MatchOption result (AreMembers numbers.now → ⊥) (λ s. AreMembers numbers.now × (member_numbers s ≡ numbers.now)) }
    {
        if numbers.is_empty()
            || numbers.len() > MOST_PLACES as usize
            || numbers.iter().any(|&number| number > 1)
        {
            return None;
        }
        let mut members = [false; 16];
        for (p, &number) in numbers.iter().enumerate() {
            members[p] = number == 1;
        }
        Some(PlaceSet {
            members,
            len: numbers.len() as u32,
        })
    }

    pub fn places(&self) -> u32
        ensures value { result ≡ length (members_of self.now) }
        ensures range { (1 ≤ result) × (result ≤ 16) }
    {
        self.len
    }

    // For each place whether it is in the set.
    pub fn members(&self) -> &[bool]
        ensures { result.now ≡ members_of self.now }
    {
        &self.members[..self.len as usize]
    }

    // Whether a place is in the set; a place that there is not is in none.
    pub fn contains(&self, p: u32) -> bool
        ensures { result ≡ slice_index_or (members_of self.now) p false }
    {
        self.members().get(p as usize).copied().unwrap_or(false)
    }
}
