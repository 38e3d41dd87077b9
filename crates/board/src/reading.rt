// Reading any board: a place that is not there holds 0 and has the limit 0.
ghost use Rattle.std.specs.Prelude.{◌≡◌, ◌<◌, length, slice_index};
ghost use Rattle.net.specs.Marking.{marking};

use crate::meaning::{Board, ReadBoard};
use net::{Counts, MOST_PLACES};

// The count at a place.
pub fn held<B: ReadBoard>(board: &B, p: u32) -> u32
    ensures { result ≡ slice_index (B.counts board.now) p }
{
    let Some(n) = board.count(p) else {
        return 0;
    };
    n
}

// The limit at a place. Each count has its limit.
pub fn limit_at<B: Board>(board: &B, p: u32) -> u32
    ensures value { result ≡ slice_index (B.Board.limits board.now) p }
    ensures paired { length (B.Board.limits board.now) ≡ length (B.ReadBoard.counts board.now) }
{
    board.limit(p).unwrap_or(0)
}

// All counts, as a value that can be read like the board.
pub fn copied<B: ReadBoard>(board: &B) -> Counts
    ensures { marking result ≡ B.counts board.now }
{
    let places = board.places() as usize;
    let mut numbers = [0; MOST_PLACES as usize];
    for (p, number) in numbers[..places].iter_mut().enumerate() {
        *number = held(board, p as u32);
    }
    Counts::new(&numbers[..places]).unwrap()
}
