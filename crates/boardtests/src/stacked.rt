// Boards in units, on bytes, on numbers and on each other.
use crate::handed_in::put;
use board::{Board, ByteBoard, NotSet, NumberBoard, ReadBoard};
use net::Plan;
use std::test::Fail;
use units::{InUnits, UnitsBoard};

// Move 0 takes 12 at place 0 and gives 1 at place 1; move 1 the reverse. The units are 12 and 1.
fn two_moves() -> Result<Plan, Fail> {
    Plan::new(2, 2, &[12, 0, 0, 1], &[0, 1, 12, 0]).ok_or_else(|| Fail::new("no plan"))
}

// Unit, full units and loose rest.
fn parts(unit: u32, full: u32, loose: u32) -> Option<InUnits> {
    Some(InUnits { unit, full, loose })
}

#[test]
fn on_bytes(rt: HostRuntime) -> Result<(), Fail> {
    let plan = two_moves()?;
    let mut bytes = [2u8, 0, 3, 0, 4, 0, 9];
    let mut low = ByteBoard::new(&mut bytes);
    let mut board = UnitsBoard::new(&plan, &mut low);
    assert_eq!(rt; board.places(), 3);
    assert_eq!(rt; board.count(0), Some(24));
    assert_eq!(rt; board.limit(0), Some(786431));
    assert_eq!(rt; board.limit(1), Some(65535));
    assert_eq!(rt; board.in_units(2), parts(1, 4, 0));
    assert_eq!(rt; board.in_units(3), None);
    assert_eq!(rt; board.set(0, 786432), Err(NotSet));
    assert_eq!(rt; board.count(0), Some(24));
    assert_eq!(rt; board.set(0, 786431), Ok(()));
    assert_eq!(rt; board.in_units(0), parts(12, 65535, 11));
    assert_eq!(rt; board.set(0, 41), Ok(()));
    assert_eq!(rt; board.in_units(0), parts(12, 3, 5));
    assert_eq!(rt; board.set(3, 0), Err(NotSet));
    assert_eq!(rt; board.count(0), Some(41));
    assert_eq!(rt; board.count(1), Some(3));
    assert_eq!(rt; bytes, [3, 0, 3, 0, 4, 0, 9]);
    Ok(())
}

// The limit below is so large that counts in units of 12 would pass 32 bits.
#[test]
fn on_numbers_the_unit_is_1(rt: HostRuntime) -> Result<(), Fail> {
    let plan = two_moves()?;
    let mut numbers = [5u32, 6];
    let mut low = NumberBoard::new(&mut numbers);
    let mut board = UnitsBoard::new(&plan, &mut low);
    assert_eq!(rt; board.in_units(0), parts(1, 5, 0));
    assert_eq!(rt; board.limit(0), Some(4294967295));
    assert_eq!(rt; board.set(0, 4294967295), Ok(()));
    assert_eq!(rt; board.count(0), Some(4294967295));
    assert_eq!(rt; numbers, [4294967295, 6]);
    Ok(())
}

#[test]
fn units_on_units_on_bytes(rt: HostRuntime) -> Result<(), Fail> {
    let plan = two_moves()?;
    let mut bytes = [0u8; 4];
    let mut low = ByteBoard::new(&mut bytes);
    let mut middle = UnitsBoard::new(&plan, &mut low);
    let mut board = UnitsBoard::new(&plan, &mut middle);
    assert_eq!(rt; board.limit(0), Some(9437183));
    assert_eq!(rt; put(&mut board, 0, 9437184), Err(NotSet));
    assert_eq!(rt; put(&mut board, 0, 1000), Ok(()));
    assert_eq!(rt; put(&mut board, 1, 65535), Ok(()));
    assert_eq!(rt; board.count(0), Some(1000));
    assert_eq!(rt; board.in_units(0), parts(12, 83, 4));
    assert_eq!(rt; middle.in_units(0), parts(12, 6, 11));
    assert_eq!(rt; middle.count(0), Some(83));
    assert_eq!(rt; low.count(0), Some(6));
    assert_eq!(rt; bytes, [6, 0, 255, 255]);
    Ok(())
}
