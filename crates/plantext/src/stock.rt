// The stock of a record as text for a person.
use crate::list::write_list;
use planrecord::{PlanRecord, StockRecord};
use std::fmt;
use units::InUnits;

#[derive(Clone, Copy, Debug, PartialEq, Eq)]
pub struct Stock<'a>(pub &'a PlanRecord);

fn write_booking<W: fmt::Write>(
    f: &mut fmt::Formatter<W>,
    p: u32,
    stock: &StockRecord,
) -> fmt::Result {
    let limit = stock.limit;
    match stock.parts {
        Some(InUnits { unit, full, loose }) => writeln!(
            f,
            "  place {p}: {full} full units of {unit}, {loose} loose, limit {limit}"
        ),
        None => writeln!(f, "  place {p}: not booked, limit {limit}"),
    }
}

impl Stock<'_> {
    fn write_stock<W: fmt::Write>(&self, f: &mut fmt::Formatter<W>) -> fmt::Result {
        writeln!(f, "stock, two bytes a place:")?;
        for (p, stock) in (0..self.0.plan.places()).zip(&self.0.stock) {
            write_booking(f, p, stock)?;
        }
        Ok(())
    }

    fn write_not_booked<W: fmt::Write>(&self, f: &mut fmt::Formatter<W>) -> fmt::Result {
        let places = (0..self.0.plan.places())
            .zip(&self.0.stock)
            .filter(|(_, stock)| stock.parts.is_none());
        write!(f, "  not booked:")?;
        write_list(f, places, ",", "none", |f, (p, _)| write!(f, "place {p}"))?;
        writeln!(f)
    }
}

impl fmt::Display for Stock<'_> {
    fn fmt<W: fmt::Write>(&self, f: &mut fmt::Formatter<W>) -> fmt::Result {
        self.write_stock(f)?;
        self.write_not_booked(f)
    }
}
