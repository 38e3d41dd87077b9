use crate::sheets::{PAST_TWO_BYTES, THREE_MOVES, TWENTY_FOUR, TWO_MOVES, UNITS_OF_12};
use planrecord::StockRecord;
use plantext::Stock;
use std::alloc::Global;
use std::process::Abort;
use std::test::Fail;
use units::InUnits;

// What is recorded of the stock of place p.
fn booking(bytes: &[u8], p: usize) -> Option<StockRecord> {
    let record = planrecord::describe(bytes).ok()?;
    record.stock.get(p).copied()
}

// A limit alone, and a limit with the unit, the full units and the loose rest of a count.
fn not_booked(limit: u32) -> Option<StockRecord> {
    Some(StockRecord { limit, parts: None })
}

fn booked(limit: u32, unit: u32, full: u32, loose: u32) -> Option<StockRecord> {
    let parts = Some(InUnits { unit, full, loose });
    Some(StockRecord { limit, parts })
}

#[test]
fn at_the_limit_and_one_past_it(rt: HostRuntime) {
    assert_eq!(rt; booking(UNITS_OF_12, 0), booked(786431, 12, 65535, 11));
    assert_eq!(rt; booking(UNITS_OF_12, 1), not_booked(65535));
    assert_eq!(rt; booking(UNITS_OF_12, 2), booked(65535, 1, 0, 0));
    let mut bytes = *UNITS_OF_12;
    bytes[20..24].copy_from_slice(&786432u32.to_le_bytes());
    bytes[24..28].copy_from_slice(&65535u32.to_le_bytes());
    assert_eq!(rt; booking(&bytes, 0), not_booked(786431));
    assert_eq!(rt; booking(&bytes, 1), booked(65535, 1, 65535, 0));
}

fn shows(rt: &impl Abort, alloc: Global, bytes: &[u8], wanted: &str) -> Result<(), Fail> {
    let record = planrecord::describe(bytes)?;
    let text = format!(in alloc; "{}", Stock(&record))?;
    assert_eq!(rt; text.as_str(), wanted);
    Ok(())
}

#[test]
fn as_text(rt: HostRuntime) -> Result<(), Fail> {
    shows(
        &rt,
        rt.alloc(),
        TWENTY_FOUR,
        "stock, two bytes a place:\n  place 0: 2 full units of 12, 0 loose, limit 786431\n  place 1: 1 full units of 1, 0 loose, limit 65535\n  not booked: none\n",
    )?;
    shows(
        &rt,
        rt.alloc(),
        THREE_MOVES,
        "stock, two bytes a place:\n  place 0: 3 full units of 2, 0 loose, limit 131071\n  place 1: 0 full units of 1, 0 loose, limit 65535\n  not booked: none\n",
    )?;
    shows(
        &rt,
        rt.alloc(),
        TWO_MOVES,
        "stock, two bytes a place:\n  place 0: 1 full units of 1, 0 loose, limit 65535\n  place 1: 1 full units of 1, 0 loose, limit 65535\n  not booked: none\n",
    )
}

#[test]
fn as_text_where_a_place_is_not_booked(rt: HostRuntime) -> Result<(), Fail> {
    shows(
        &rt,
        rt.alloc(),
        PAST_TWO_BYTES,
        "stock, two bytes a place:\n  place 0: 2 full units of 12, 5 loose, limit 786431\n  place 1: not booked, limit 65535\n  not booked: place 1\n",
    )?;
    shows(
        &rt,
        rt.alloc(),
        UNITS_OF_12,
        "stock, two bytes a place:\n  place 0: 65535 full units of 12, 11 loose, limit 786431\n  place 1: not booked, limit 65535\n  not booked: place 1\n",
    )
}
