ghost use Rattle.std.specs.Prelude.{◌≡◌, ◌<◌, length, MatchOption, slice_index};
ghost use Rattle.net.specs.Answers.{AnswersAt};
ghost use Rattle.net.specs.Marking.{marking};

use super::Counts;
use crate::plan::MOST_PLACES;

impl Counts {
    // The counts of as many places as there are numbers; none where there are more than 16.
    pub fn new(numbers: &[u32]) -> Option<Counts>
        ensures { MatchOption result (16 < length numbers.now) (λ c. marking c ≡ numbers.now) }
    {
        if numbers.len() > MOST_PLACES as usize {
            return None;
        }
        let mut held = [0u32; 16];
        for (p, &number) in numbers.iter().enumerate() {
            held[p] = number;
        }
        Some(Counts {
            held,
            len: numbers.len() as u32,
        })
    }

    // The counts, one for each place.
    pub fn numbers(&self) -> &[u32]
        ensures { result.now ≡ marking self.now }
    {
        &self.held[..self.len as usize]
    }

    pub fn places(&self) -> u32
        ensures { result ≡ length (marking self.now) }
    {
        self.len
    }

    // The count at a place, absent where there is no such place.
    pub fn count(&self, p: u32) -> Option<u32>
        ensures { AnswersAt (marking self.now) p result }
    {
        self.numbers().get(p as usize).copied()
    }

    // The count at a place, where a place that is not there holds 0.
    pub fn held(&self, p: u32) -> u32
        ensures { result ≡ slice_index (marking self.now) p }
    {
        self.count(p).unwrap_or(0)
    }
}
