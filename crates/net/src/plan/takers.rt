// The largest and the least take of a place.
ghost use Rattle.std.specs.Prelude.{◌≡◌, MatchOption};
ghost use Rattle.net.specs.Takes.{NoTaker, largest_take, least_take, IsLargestTake, IsLeastTake, lesser_take};
ghost use Rattle.net.specs.Model.{net};

use super::Plan;

// The lesser of two takes, where 0 is no take.
fn lesser(a: u16, b: u16) -> u16
    ensures { result ≡ lesser_take a b }
{
    if b == 0 || (a != 0 && a < b) { a } else { b }
}

impl Plan {
    // The largest take of place p over its takers, absent where it has none.
    pub fn largest_take(&self, p: u32) -> Option<u16>
        ensures { MatchOption result (NoTaker (net self.now) p) (λ n. (n ≡ largest_take (net self.now) p) × IsLargestTake (net self.now) p n) }
    {
        let largest = (0..self.moves).fold(0, |largest, t| largest.max(self.take(t, p)));
        Some(largest).filter(|&n| n > 0)
    }

    // The least take of place p over its takers, absent where it has none.
    pub fn least_take(&self, p: u32) -> Option<u16>
        ensures { MatchOption result (NoTaker (net self.now) p) (λ n. (n ≡ least_take (net self.now) p) × IsLeastTake (net self.now) p n) }
    {
        let least = (0..self.moves).fold(0, |least, t| lesser(least, self.take(t, p)));
        Some(least).filter(|&n| n > 0)
    }
}
