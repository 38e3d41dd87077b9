// The boards that stand by themselves.
use board::{Board, ByteBoard, NotSet, NumberBoard, ReadBoard};
use net::Counts;
use std::process::Abort;
use std::test::Fail;

fn has_no_place<B: Board>(rt: &impl Abort, board: &mut B) {
    assert_eq!(rt; board.places(), 0);
    assert_eq!(rt; board.count(0), None);
    assert_eq!(rt; board.limit(0), None);
    assert_eq!(rt; board.set(0, 0), Err(NotSet));
}

#[test]
fn no_memory_has_no_place(rt: HostRuntime) {
    let mut numbers = [0u32; 0];
    has_no_place(&rt, &mut NumberBoard::new(&mut numbers));
    let mut byte = [7u8; 1];
    has_no_place(&rt, &mut ByteBoard::new(&mut byte));
}

#[test]
fn numbers_past_the_sixteenth(rt: HostRuntime) {
    let mut numbers = [9u32; 18];
    let mut board = NumberBoard::new(&mut numbers);
    assert_eq!(rt; board.places(), 16);
    assert_eq!(rt; board.set(15, u32::MAX), Ok(()));
    assert_eq!(rt; board.set(16, 1), Err(NotSet));
    assert_eq!(rt; board.count(15), Some(u32::MAX));
    assert_eq!(rt; board.limit(15), Some(u32::MAX));
    assert_eq!(rt; board.count(16), None);
    assert_eq!(rt; board.limit(16), None);
    assert_eq!(rt; board.count(14), Some(9));
    assert_eq!(rt; numbers[15], u32::MAX);
    assert_eq!(rt; numbers[16], 9);
    assert_eq!(rt; numbers[17], 9);
}

#[test]
fn low_byte_first_and_an_odd_last_byte(rt: HostRuntime) {
    let mut bytes = [1u8, 2, 3, 4, 5];
    let mut board = ByteBoard::new(&mut bytes);
    assert_eq!(rt; board.places(), 2);
    assert_eq!(rt; board.count(0), Some(513));
    assert_eq!(rt; board.count(1), Some(1027));
    assert_eq!(rt; board.count(2), None);
    assert_eq!(rt; board.limit(1), Some(65535));
    assert_eq!(rt; board.set(1, 258), Ok(()));
    assert_eq!(rt; board.set(0, 65536), Err(NotSet));
    assert_eq!(rt; board.set(2, 0), Err(NotSet));
    assert_eq!(rt; board.count(0), Some(513));
    assert_eq!(rt; board.set(0, 65535), Ok(()));
    assert_eq!(rt; bytes, [255, 255, 2, 1, 5]);
}

#[test]
fn bytes_past_the_sixteenth_place(rt: HostRuntime) {
    let mut bytes = [8u8; 35];
    let mut board = ByteBoard::new(&mut bytes);
    assert_eq!(rt; board.places(), 16);
    assert_eq!(rt; board.set(15, 0), Ok(()));
    assert_eq!(rt; board.set(16, 0), Err(NotSet));
    assert_eq!(rt; board.count(16), None);
    assert_eq!(rt; board.limit(16), None);
    assert_eq!(rt; bytes[29], 8);
    assert_eq!(rt; bytes[30], 0);
    assert_eq!(rt; bytes[31], 0);
    assert_eq!(rt; bytes[32], 8);
}

#[test]
fn filed_counts_are_read(rt: HostRuntime) -> Result<(), Fail> {
    let filed = Counts::new(&[6, 0, 4294967295]).ok_or_else(|| Fail::new("too many"))?;
    assert_eq!(rt; filed.places(), 3);
    assert_eq!(rt; ReadBoard::count(&filed, 2), Some(4294967295));
    assert_eq!(rt; ReadBoard::count(&filed, 3), None);
    assert_eq!(rt; board::held(&filed, 0), 6);
    assert_eq!(rt; board::held(&filed, 3), 0);
    let again = board::copied(&filed);
    assert_eq!(rt; again.places(), 3);
    assert_eq!(rt; ReadBoard::count(&again, 0), Some(6));
    Ok(())
}

#[test]
fn a_copy_of_any_board(rt: HostRuntime) {
    let mut bytes = [1u8, 0, 0, 1];
    let board = ByteBoard::new(&mut bytes);
    assert_eq!(rt; board::limit_at(&board, 1), 65535);
    assert_eq!(rt; board::limit_at(&board, 2), 0);
    let counts = board::copied(&board);
    assert_eq!(rt; counts.places(), 2);
    assert_eq!(rt; counts.held(0), 1);
    assert_eq!(rt; counts.held(1), 256);
    assert_eq!(rt; counts.held(2), 0);
}
