// Which moves are fed.
ghost use Rattle.std.specs.Prelude.{◌≡◌, ◌↔◌, ◌≤◌, IsTrue, EachIndex, MatchBool, count_ones, length, slice_index};
ghost use Rattle.net.specs.Net.{Fed};
ghost use Rattle.net.specs.Fed.{is_fed, IsFedWord, fed_move_count};
ghost use Rattle.net.specs.Marking.{marking};
ghost use Rattle.net.specs.Model.{net};

use super::Plan;
use crate::counts::Counts;

impl Plan {
    // Whether every place holds at least what a row of takes has there.
    fn covers(&self, takes: &[u16], counts: &Counts) -> bool
        requires { length takes.now ≡ (net self.now).places }
        ensures { IsTrue result ↔ EachIndex takes.now (λ p. slice_index takes.now p ≤ slice_index (marking counts.now) p) }
    {
        for p in 0..self.places {
            if counts.held(p) < u32::from(takes[p as usize]) {
                return false;
            }
        }
        true
    }

    // Whether every place holds at least what move t takes there; false where the plan has no such move.
    pub fn is_fed(&self, t: u32, counts: &Counts) -> bool
        ensures value { result ≡ is_fed (net self.now) (marking counts.now) t }
        ensures fed { MatchBool result (Fed (net self.now) (marking counts.now) t) (Fed (net self.now) (marking counts.now) t → ⊥) }
    {
        self.takes_of(t)
            .is_some_and(|takes| self.covers(takes, counts))
    }

    // The word in which the bit worth 2^t is set if and only if move t is fed.
    pub fn fed_word(&self, counts: &Counts) -> u32
        ensures bits { IsFedWord (net self.now) (marking counts.now) result }
        ensures ones { count_ones result ≡ fed_move_count (net self.now) (marking counts.now) }
    {
        let mut word = 0u32;
        for t in 0..self.moves {
            if self.is_fed(t, counts) {
                word |= 1 << t;
            }
        }
        word
    }

    // How many moves are fed.
    pub fn fed_moves(&self, counts: &Counts) -> u32
        ensures { result ≡ fed_move_count (net self.now) (marking counts.now) }
    {
        self.fed_word(counts).count_ones()
    }
}
