// The stock of a plan: its counts on a board of two bytes a place, in units of the plan.
ghost use Rattle.std.specs.Prelude.{◌≡◌, ℕ, ◌<◌, replicate, slice_index, slice_index_or};
ghost use Rattle.net.specs.Model.{net};
ghost use Rattle.net.specs.Marking.{marking};
ghost use Rattle.planrecord.specs.Stock.{DescribesStock};

use crate::filed::Filed;
use crate::records::StockRecord;
use board::{Board, ByteBoard};
use net::Counts;
use std::array;
use units::UnitsBoard;

// Books a count at a place of a board that is made for this and let go afterwards.
fn stock_record<B: Board>(board: &mut UnitsBoard<'_, '_, B>, p: u32, count: u32) -> StockRecord
    ensures stock { DescribesStock (net board.old.plan.now) (B.Board.limits board.old.below.now) p count result }
    ensures plan { net board.new.plan.now ≡ net board.old.plan.now }
    ensures limits { B.Board.limits board.new.below.now ≡ B.Board.limits board.old.below.now }
{
    let limit = board::limit_at(board, p);
    let parts = match board.set(p, count) {
        Ok(()) => board.in_units(p),
        Err(_) => None,
    };
    StockRecord { limit, parts }
}

// Books the count of each of 16 places.
fn book_all<B: Board>(board: &mut UnitsBoard<'_, '_, B>, counts: &Counts) -> [StockRecord; 16]
    ensures { (p : ℕ) (other : StockRecord) → p < 16 → DescribesStock (net board.old.plan.now) (B.Board.limits board.old.below.now) p (slice_index (marking counts.now) p) (slice_index_or result p other) }
{
    array::from_fn(|p| stock_record(board, p as u32, counts.held(p as u32)))
}

impl Filed<'_> {
    // The stock of each of 16 places.
    pub(crate) fn stock(&self) -> [StockRecord; 16]
        ensures { (p : ℕ) (other : StockRecord) → p < 16 → DescribesStock (net self.now.plan.now) (replicate 16 65535) p (slice_index (marking self.now.counts.now) p) (slice_index_or result p other) }
    {
        let mut bytes = [0u8; 32];
        let mut low = ByteBoard::new(&mut bytes);
        let mut board = UnitsBoard::new(self.plan, &mut low);
        book_all(&mut board, self.counts)
    }
}
