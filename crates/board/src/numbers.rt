// A board on 32-bit numbers: a place for each, at most 16, that may hold any count.
ghost use Rattle.std.specs.Prelude.{◌≡◌};
ghost use Rattle.board.specs.Numbers.{number_counts, number_limits, numbers_past};
ghost use Rattle.board.specs.Frames.{LentFrame};
ghost use Rattle.board.specs.Few.{numbers-few};

use crate::meaning::{Board, NotSet, ReadBoard};
use net::MOST_PLACES;

#[derive(Drop)]
pub struct NumberBoard<'m> {
    numbers: &'m mut [u32],
}

impl<'m> NumberBoard<'m> {
    // The board on these numbers: it stands on this memory and changes nothing yet.
    pub fn new(numbers: &'m mut [u32]) -> NumberBoard<'m>
        ensures value { result.numbers.now ≡ numbers.old }
        ensures same { result.numbers.ghost_name ≡ numbers.entry.ghost_name }
    {
        NumberBoard { numbers }
    }
}

impl NumberBoard<'_> {
    // The numbers that are counts.
    fn held(&self) -> &[u32]
        ensures { result.now ≡ number_counts self.now.numbers.now }
    {
        &self.numbers[..self.numbers.len().min(MOST_PLACES as usize)]
    }
}

impl<'m> ReadBoard for NumberBoard<'m> {
    ghost counts = { λ b. number_counts b.numbers.now };

    fn places(&self) -> u32 {
        self.held().len() as u32
    }

    fn count(&self, p: u32) -> Option<u32> {
        self.held().get(p as usize).copied()
    }

    ghost few = { λ b. numbers-few b.numbers.now };
}

impl<'m> Board for NumberBoard<'m> {
    ghost limits = { λ b. number_limits b.numbers.now };

    ghost Frame = { LentFrame };

    ghost kept = { λ b. record { memory = b.numbers.ghost_name; past = numbers_past b.numbers.now } };

    fn limit(&self, p: u32) -> Option<u32> {
        self.count(p).map(|_| u32::MAX)
    }

    fn set(&mut self, p: u32, n: u32) -> Result<(), NotSet> {
        if p >= self.places() {
            return Err(NotSet);
        }
        self.numbers[p as usize] = n;
        Ok(())
    }
}
