// The lines that are printed.
ghost use Rattle.checkquery.specs.Printed.{fault_line, part_counts, summary_line};
ghost use Rattle.query.specs.Meant.{meaning};
ghost use Rattle.std.specs.Prelude.{Some};

use query::{Fault, Query};
use std::fmt;

// fault NUMBER LAYER PLACE
#[derive(Clone, Copy)]
pub struct FaultLine(pub Fault);

impl fmt::Display for FaultLine {
    ghost output = { λ x. Some (fault_line x.0) };

    fn fmt<W: fmt::Write>(&self, f: &mut fmt::Formatter<W>) -> fmt::Result {
        let fault = self.0;
        let number = fault.number();
        let layer = fault.layer().word();
        let place = fault.place();
        write!(f, "fault {number} {layer} {place}")
    }
}

// ok POSITIVES NEGATIVES CLAUSES TESTS WINDOW, and where the query asks for the key also that
#[derive(Clone, Copy)]
pub struct Summary<'a>(pub &'a Query);

impl fmt::Display for Summary<'_> {
    ghost output = { λ x. Some (summary_line (meaning x.0.now)) };

    fn fmt<W: fmt::Write>(&self, f: &mut fmt::Formatter<W>) -> fmt::Result {
        let query = self.0;
        let parts = PartCounts(query);
        let clauses = query.count_clauses();
        let tests = query.count_tests();
        let window = query.window();
        let key = if query.asks_key() { " key" } else { "" };
        write!(f, "ok {parts} {clauses} {tests} {window}{key}")
    }
}

// POSITIVES NEGATIVES
#[derive(Clone, Copy)]
struct PartCounts<'a>(&'a Query);

impl fmt::Display for PartCounts<'_> {
    ghost output = { λ x. Some (part_counts (meaning x.0.now)) };

    fn fmt<W: fmt::Write>(&self, f: &mut fmt::Formatter<W>) -> fmt::Result {
        let positives = self.0.count_parts(false);
        let negatives = self.0.count_parts(true);
        write!(f, "{positives} {negatives}")
    }
}
