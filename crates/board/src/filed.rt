// The counts that are filed in a sheet, or copied from a board: they can be read, and nothing writes them.
ghost use Rattle.net.specs.Marking.{marking};
ghost use Rattle.board.specs.Few.{marking-few};

use crate::meaning::ReadBoard;
use net::Counts;

impl ReadBoard for Counts {
    ghost counts = { marking };

    fn places(&self) -> u32 {
        Counts::places(self)
    }

    fn count(&self, p: u32) -> Option<u32> {
        Counts::count(self, p)
    }

    ghost few = { marking-few };
}
