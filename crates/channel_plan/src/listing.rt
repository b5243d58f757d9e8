// Plans and refusals as text.
ghost use Rattle.std.specs.Prelude.{Some};
ghost use Rattle.channel_plan.specs.Listings.{listing, refusal_text, row_text};

use crate::plan::Plan;
use crate::refusal::FileRefusal;
use crate::row::Row;
use std::fmt;

impl fmt::Display for Row {
    ghost output = { λ r. Some (row_text r) };

    fn fmt<W: fmt::Write>(&self, f: &mut fmt::Formatter<W>) -> fmt::Result {
        let channel = self.channel;
        let bits = u16::from(self.assignment.rate);
        let first = self.assignment.first;
        let slots = self.assignment.slots();
        write!(f, "{channel},{bits},{first},{slots}")
    }
}

/// A plan prints as its listing.
impl fmt::Display for Plan {
    ghost output = { λ p. Some (listing p.table.entries) };

    fn fmt<W: fmt::Write>(&self, f: &mut fmt::Formatter<W>) -> fmt::Result {
        writeln!(f, "channel,rate,first,slots")?;
        for row in self.rows() {
            writeln!(f, "{row}")?;
        }
        Ok(())
    }
}

impl fmt::Display for FileRefusal {
    ghost output = { λ r. Some (refusal_text r) };

    fn fmt<W: fmt::Write>(&self, f: &mut fmt::Formatter<W>) -> fmt::Result {
        let number = u8::from(self.reason);
        let line = self.line;
        let byte = self.byte;
        write!(f, "refused {number} line {line} byte {byte}")
    }
}
