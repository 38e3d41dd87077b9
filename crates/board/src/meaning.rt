// What a board means.
ghost use Rattle.std.specs.Prelude.{◌≡◌, ℕ, ◌≤◌, List, length, Some, codes};
ghost use Rattle.net.specs.Answers.{AnswersAt};
ghost use Rattle.board.specs.Answers.{LimitAt, Sets};

use std::error::Error;
use std::fmt;

// The answer where a place was not set, since the board has no such place or it may not hold so much.
#[derive(Clone, Copy, Debug, PartialEq, Eq)]
pub struct NotSet;

impl fmt::Display for NotSet {
    ghost output = { λ _. Some (codes "the place was not set") };

    fn fmt<W: fmt::Write>(&self, f: &mut fmt::Formatter<W>) -> fmt::Result {
        f.write_str("the place was not set")
    }
}

impl Error for NotSet {}

// A board that can be read: at most 16 places with a count at each.
pub trait ReadBoard {
    ghost counts: { Self → List ℕ };

    fn places(&self) -> u32
        ensures { result ≡ length (counts self.now) };

    // The count at a place, absent where there is no such place.
    fn count(&self, p: u32) -> Option<u32>
        ensures { AnswersAt (counts self.now) p result };

    // There are at most 16 places, for every value of the type: where that rests on more than its fields show, an invariant in the type says it.
    ghost few: { (b : Self) → length (counts b) ≤ 16 };
}

// A board that can be written too: each place has a limit, which no call changes.
pub trait Board: ReadBoard {
    ghost limits: { Self → List ℕ };

    // What the board has beside counts and limits, which no call changes: the part of the memory handed in that holds no count, and which
    // memory that is. A board with nothing to say of it gives a `Unit`.
    ghost Frame: { Type 0 };

    ghost kept: { Self → Frame };

    // The limit at a place, absent where there is no such place. It is at least the count there.
    fn limit(&self, p: u32) -> Option<u32>
        ensures { LimitAt (Self.ReadBoard.counts self.now) (limits self.now) p result };

    // Sets place p to n: accepted if and only if there is such a place and n is at most its limit.
    fn set(&mut self, p: u32, n: u32) -> Result<(), NotSet>
        ensures counts { Sets (Self.ReadBoard.counts self.old) (limits self.old) p n result (Self.ReadBoard.counts self.new) }
        ensures limits { limits self.new ≡ limits self.old }
        ensures kept { kept self.new ≡ kept self.old };
}
