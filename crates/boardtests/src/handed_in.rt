// Code that knows a board by its meaning alone, and what it is then known to do with the memory below.
ghost use Rattle.std.specs.Prelude.{◌≡◌};
ghost use Rattle.board.specs.Answers.{Sets};
ghost use Rattle.board.specs.Bytes.{byte_counts, byte_limits, bytes_past};
ghost use Rattle.board.specs.Numbers.{number_counts, number_limits, numbers_past};

use board::{Board, ByteBoard, NotSet, NumberBoard};
use net::Plan;
use units::UnitsBoard;

pub(crate) fn put<B: Board>(board: &mut B, p: u32, n: u32) -> Result<(), NotSet>
    ensures counts { Sets (B.ReadBoard.counts board.old) (B.Board.limits board.old) p n result (B.ReadBoard.counts board.new) }
    ensures limits { B.Board.limits board.new ≡ B.Board.limits board.old }
    ensures kept { B.Board.kept board.new ≡ B.Board.kept board.old }
{
    board.set(p, n)
}

// Every number handed in: the one at p is n and the others are as they were, or all are as they were.
fn put_on_numbers(numbers: &mut [u32], p: u32, n: u32) -> Result<(), NotSet>
    ensures counts { Sets (number_counts numbers.old) (number_limits numbers.old) p n result (number_counts numbers.new) }
    ensures past { numbers_past numbers.new ≡ numbers_past numbers.old }
{
    let mut board = NumberBoard::new(numbers);
    put(&mut board, p, n)
}

// Every byte handed in: the two at p spell n and the others are as they were, or all are as they were.
fn put_on_bytes(bytes: &mut [u8], p: u32, n: u32) -> Result<(), NotSet>
    ensures counts { Sets (byte_counts bytes.old) (byte_limits bytes.old) p n result (byte_counts bytes.new) }
    ensures past { bytes_past bytes.new ≡ bytes_past bytes.old }
{
    let mut board = ByteBoard::new(bytes);
    put(&mut board, p, n)
}

// What lies beside the counts of any board stays as it was, under a board in units too.
fn put_in_units<B: Board>(below: &mut B, plan: &Plan, p: u32, n: u32) -> Result<(), NotSet>
    ensures kept { B.Board.kept below.new ≡ B.Board.kept below.old }
{
    let mut board = UnitsBoard::new(plan, below);
    put(&mut board, p, n)
}

// So do the bytes past the places of a byte board, and an odd last byte.
fn put_on_bytes_in_units(bytes: &mut [u8], plan: &Plan, p: u32, n: u32) -> Result<(), NotSet>
    ensures { bytes_past bytes.new ≡ bytes_past bytes.old }
{
    let mut low = ByteBoard::new(bytes);
    put_in_units(&mut low, plan, p, n)
}
