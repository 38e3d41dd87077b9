use crate::sheets::{THREE_MOVES, TWO_MOVES};
use std::process::Abort;

// The number, slot and spot of a refusal.
type Answer = Result<(), (u32, u32, u32)>;

// Where a 16-bit number is written into a sheet, the number, and the answer.
type Case = (usize, u16, Answer);

fn answer(bytes: &[u8]) -> Answer {
    sheet::read(bytes).map(|_| ()).map_err(|refusal| (
        refusal.number(),
        refusal.slot(),
        refusal.spot(),
    ))
}

fn checked(rt: &impl Abort, bytes: &mut [u8], (at, value, wanted): Case) {
    assert!(rt; at < bytes.len() && at + 1 < bytes.len());
    bytes[at..at + 2].copy_from_slice(&value.to_le_bytes());
    assert_eq!(rt; answer(bytes), wanted);
}

// Each case on a fresh copy of the sheet.
fn each_checked<const N: usize>(rt: &impl Abort, sheet: &[u8; N], cases: &[Case]) {
    for case in cases {
        let mut bytes = *sheet;
        checked(rt, &mut bytes, *case);
    }
}

#[test]
fn lengths(rt: HostRuntime) {
    let sheet = THREE_MOVES;
    for n in 0..4usize {
        assert_eq!(rt; answer(&sheet[..n]), Err((1, 0, n as u32)));
    }
    assert_eq!(rt; answer(&sheet[..4]), Err((4, 0, 4)));
    assert_eq!(rt; answer(&sheet[..59]), Err((4, 0, 59)));
    let mut longer = [0u8; 61];
    longer[..60].copy_from_slice(sheet);
    assert_eq!(rt; answer(&longer), Err((4, 0, 60)));
    assert_eq!(rt; answer(sheet), Ok(()));
}

// The first two bytes are the numbers of places and moves, the next two the kinds.
#[test]
fn headers(rt: HostRuntime) {
    let cases = [
        (0, 0x0300, Err((2, 0, 0))),
        (0, 0x0311, Err((2, 0, 0))),
        (0, 0x0002, Err((2, 0, 1))),
        (0, 0x2102, Err((2, 0, 1))),
        (0, 0x0000, Err((2, 0, 0))),
        (0, 0x0301, Err((4, 0, 40))),
        (0, 0x0303, Err((4, 0, 60))),
        (2, 0x0100, Err((3, 0, 2))),
        (2, 0x0105, Err((3, 0, 2))),
        (2, 0x0502, Err((3, 0, 3))),
        (2, 0x0500, Err((3, 0, 2))),
        (2, 0x0002, Err((6, 0, 48))),
        (2, 0x0102, Ok(())),
    ];
    each_checked(&rt, THREE_MOVES, &cases);
}

#[test]
fn takes_and_gives(rt: HostRuntime) {
    let cases = [
        (4, 1000, Ok(())),
        (4, 1001, Err((5, 0, 4))),
        (8, 1001, Err((5, 0, 8))),
        (14, 1001, Err((5, 0, 14))),
        (16, 1001, Err((5, 0, 16))),
        (26, 1000, Ok(())),
        (26, 65535, Err((5, 0, 26))),
    ];
    each_checked(&rt, THREE_MOVES, &cases);
}

// A take is tried before a give, and a field of the first certificate before one of the second.
#[test]
fn lower_offsets_first(rt: HostRuntime) {
    let mut bytes = *THREE_MOVES;
    let cases = [
        (58, 1001, Err((6, 0, 58))),
        (44, 0, Err((6, 0, 44))),
        (36, 1, Err((6, 0, 36))),
        (16, 1001, Err((5, 0, 16))),
        (8, 1001, Err((5, 0, 8))),
    ];
    for case in cases {
        checked(&rt, &mut bytes, case);
    }
}

// The weights of the first certificate stand at 44 and 46, its ceiling at 36; those of the second at 56 and 58, and at 48.
#[test]
fn weights_and_ceilings(rt: HostRuntime) {
    let cases = [
        (44, 0, Err((6, 0, 44))),
        (46, 1000, Ok(())),
        (46, 1001, Err((6, 0, 46))),
        (36, 1, Err((6, 0, 36))),
        (42, 256, Err((6, 0, 36))),
        (48, 65535, Ok(())),
        (56, 0, Err((6, 0, 56))),
        (58, 1001, Err((6, 0, 58))),
    ];
    each_checked(&rt, THREE_MOVES, &cases);
}

// The set of the first certificate stands at 36 and 38; the blank begins at 40, and its numbers at 48.
#[test]
fn sets_and_blanks(rt: HostRuntime) {
    let cases = [
        (36, 0, Ok(())),
        (38, 2, Err((6, 0, 38))),
        (28, 1, Err((6, 0, 28))),
        (40, 1, Err((6, 0, 40))),
        (48, 1, Err((6, 0, 48))),
        (50, 1, Err((6, 0, 50))),
    ];
    each_checked(&rt, TWO_MOVES, &cases);
}

// 16 places and 32 moves: 2,196 bytes, with a ceiling whose weights begin at 2,124.
fn largest_sheet(weight: u8) -> [u8; 2196] {
    let mut bytes = [0u8; 2196];
    bytes[0] = 16;
    bytes[1] = 32;
    bytes[2] = 1;
    for low in bytes[2124..2156].iter_mut().step_by(2) {
        *low = weight;
    }
    bytes
}

#[test]
fn the_largest_sheet(rt: HostRuntime) {
    assert_eq!(rt; answer(&largest_sheet(0)), Err((6, 0, 2124)));
    let bytes = largest_sheet(1);
    assert_eq!(rt; answer(&bytes), Ok(()));
    assert_eq!(rt; bytes.get(..2195).map(answer), Some(Err((4, 0, 2195))));
}
