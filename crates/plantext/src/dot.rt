// A record's plan as Graphviz source: places are circles with their counts, moves are boxes, arcs have their weights.
use planrecord::PlanRecord;
use std::fmt;

#[derive(Clone, Copy, Debug, PartialEq, Eq)]
pub struct Dot<'a>(pub &'a PlanRecord);

fn write_arcs<W: fmt::Write>(f: &mut fmt::Formatter<W>, shown: &PlanRecord, t: u32) -> fmt::Result {
    for p in 0..shown.plan.places() {
        let taken = shown.plan.take(t, p);
        if taken != 0 {
            writeln!(f, "    p{p} -> t{t} [label=\"{taken}\"];")?;
        }
        let given = shown.plan.give(t, p);
        if given != 0 {
            writeln!(f, "    t{t} -> p{p} [label=\"{given}\"];")?;
        }
    }
    Ok(())
}

impl fmt::Display for Dot<'_> {
    fn fmt<W: fmt::Write>(&self, f: &mut fmt::Formatter<W>) -> fmt::Result {
        let shown = self.0;
        writeln!(f, "digraph plan {{")?;
        for (p, place) in (0..shown.plan.places()).zip(&shown.places) {
            let count = place.count;
            writeln!(f, "    p{p} [shape=circle, label=\"place {p}\\n{count}\"];")?;
        }
        for t in 0..shown.plan.moves() {
            writeln!(f, "    t{t} [shape=box, label=\"move {t}\"];")?;
        }
        for t in 0..shown.plan.moves() {
            write_arcs(f, shown, t)?;
        }
        writeln!(f, "}}")
    }
}
