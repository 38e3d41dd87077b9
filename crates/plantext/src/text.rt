// A record as text for a person.
use crate::list::write_list;
use clause::{Certificate, PlaceSet};
use planrecord::{CertificateRecord, PlaceRecord, PlanRecord, WeighingRecord};
use std::fmt;
use weigh::Weighing;

#[derive(Clone, Copy, Debug, PartialEq, Eq)]
pub struct Text<'a>(pub &'a PlanRecord);

fn write_place<W: fmt::Write>(
    f: &mut fmt::Formatter<W>,
    p: u32,
    place: &PlaceRecord,
) -> fmt::Result {
    let PlaceRecord {
        count,
        unit,
        least,
        largest,
    } = place;
    write!(f, "place {p}: count {count}, unit {unit}, ")?;
    match (least, largest) {
        (Some(least), Some(largest)) => writeln!(f, "least take {least}, largest take {largest}"),
        _ => writeln!(f, "no taker"),
    }
}

// The places of a row that are not 0.
fn write_row<W: fmt::Write>(f: &mut fmt::Formatter<W>, row: &[u16]) -> fmt::Result {
    let arcs = row.iter().enumerate().filter(|(_, n)| **n != 0);
    write_list(
        f,
        arcs,
        ",",
        "nothing",
        |f, (p, n)| write!(f, "{n} at place {p}"),
    )
}

fn write_weights<W: fmt::Write>(f: &mut fmt::Formatter<W>, weighing: &Weighing) -> fmt::Result {
    write!(f, "  weights:")?;
    for weight in weighing.weights() {
        write!(f, " {weight}")?;
    }
    writeln!(f)
}

fn write_set<W: fmt::Write>(f: &mut fmt::Formatter<W>, set: &PlaceSet) -> fmt::Result {
    let places = set
        .members()
        .iter()
        .enumerate()
        .filter(|(_, is_member)| **is_member);
    write!(f, "  places in the set:")?;
    write_list(f, places, "", "none", |f, (p, _)| write!(f, "{p}"))?;
    writeln!(f)
}

fn write_weighing<W: fmt::Write>(
    f: &mut fmt::Formatter<W>,
    weighing: &WeighingRecord,
) -> fmt::Result {
    let WeighingRecord { balance, sum } = weighing;
    match balance {
        Ok(()) => writeln!(f, "  balances the plan: yes")?,
        Err(imbalance) => writeln!(f, "  balances the plan: no, {imbalance}")?,
    }
    writeln!(f, "  weighed sum: {sum}")
}

fn write_certificate<W: fmt::Write>(
    f: &mut fmt::Formatter<W>,
    slot: u32,
    shown: &CertificateRecord,
) -> fmt::Result {
    let kind = shown.certificate.kind();
    writeln!(f, "certificate {slot}: {kind}")?;
    match &shown.certificate {
        Certificate::Ceiling { ceiling, .. } => writeln!(f, "  ceiling: {ceiling}")?,
        _ => writeln!(f, "  ceiling: none")?,
    }
    match &shown.certificate {
        Certificate::Blank => writeln!(f, "  numbers: none")?,
        Certificate::Ceiling { weighing, .. } | Certificate::NeverStuck { weighing } => {
            write_weights(f, weighing)?;
        }
        Certificate::DeadSet { set } | Certificate::KeptSet { set } => write_set(f, set)?,
    }
    if let Some(weighing) = &shown.weighing {
        write_weighing(f, weighing)?;
    }
    Ok(())
}

impl Text<'_> {
    fn write_move<W: fmt::Write>(&self, f: &mut fmt::Formatter<W>, t: u32) -> fmt::Result {
        write!(f, "move {t}: takes")?;
        if let Some(takes) = self.0.plan.takes_of(t) {
            write_row(f, takes)?;
        }
        write!(f, "; gives")?;
        if let Some(gives) = self.0.plan.gives_of(t) {
            write_row(f, gives)?;
        }
        if self.shows_fed(t) {
            writeln!(f, "; fed")
        } else {
            writeln!(f)
        }
    }

    // The bit of move t in the fed word.
    fn shows_fed(&self, t: u32) -> bool {
        t < 32 && (self.0.fed_word >> t) & 1 == 1
    }

    fn write_fed<W: fmt::Write>(&self, f: &mut fmt::Formatter<W>) -> fmt::Result {
        let fed = self.0.fed_moves;
        let moves = self.0.plan.moves();
        write!(f, "fed moves: {fed} of {moves}")?;
        for t in (0..moves).filter(|t| self.shows_fed(*t)) {
            write!(f, ", move {t}")?;
        }
        writeln!(f)
    }
}

impl fmt::Display for Text<'_> {
    fn fmt<W: fmt::Write>(&self, f: &mut fmt::Formatter<W>) -> fmt::Result {
        let places = self.0.plan.places();
        let moves = self.0.plan.moves();
        writeln!(f, "plan: places {places}, moves {moves}")?;
        for (p, place) in (0..places).zip(&self.0.places) {
            write_place(f, p, place)?;
        }
        for t in 0..moves {
            self.write_move(f, t)?;
        }
        self.write_fed(f)?;
        write_certificate(f, 1, &self.0.first)?;
        write_certificate(f, 2, &self.0.second)
    }
}
