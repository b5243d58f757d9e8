// Plan files.
ghost use Rattle.std.specs.Prelude.{◌≡◌, ◌+◌, ◌≤◌, length, IfErr, OnOk, ok_or};
ghost use Rattle.channel_plan.specs.Files.{ended, values_of, with_file, with_line, with_lines};
ghost use Rattle.channel_plan.specs.Laws.{Accepted, Refused};
ghost use Rattle.channel_plan.specs.Outcomes.{answer, left};
ghost use Rattle.channel_plan.specs.declared.refusal.Reason.TheVariants.{Number};
ghost use Rattle.plan_text.specs.Numbers.{number_of};
ghost use Rattle.plan_text.specs.Pieces.{lines};

use crate::draft::Draft;
use crate::lines::{Line, Lines};
use crate::refusal::{FileRefusal, Reason};
use plan_text::{Column, Columns, Header, text};

/// The longest plan file.
pub const MAX_FILE: usize = 4096;

// Why a line has no three numbers, and at which of its bytes.
#[derive(Clone, Copy)]
pub(crate) struct Fault {
    reason: Reason,
    at: usize,
}

// Whether the last byte, if there is one, ends a line.
fn ended(file: &[u8]) -> bool
    ensures { result ≡ ended file.now }
{
    match file {
        [] => true,
        [.., last] => *last == b'\n',
    }
}

// The number that a field writes, which begins at that byte of its line.
fn number_at(at: usize, field: &[u8]) -> Result<u16, Fault>
    ensures { result ≡ ok_or (number_of field.now) (record { reason = Number; at = at }) }
{
    text::number(field).ok_or(Fault {
        reason: Reason::Number,
        at,
    })
}

// The three numbers of a line from left to right, or why not.
fn values(line: &[u8]) -> Result<Columns<u16>, Fault>
    ensures value { result ≡ values_of line.now }
    ensures within { IfErr result (λ fault. fault.at ≤ length line.now) }
{
    let fields = text::three_fields(line).ok_or(Fault {
        reason: Reason::Fields,
        at: 0,
    })?;
    let middle_at = fields.left.len() + 1;
    let right_at = middle_at + (fields.middle.len() + 1);
    let left = number_at(0, fields.left)?;
    let middle = number_at(middle_at, fields.middle)?;
    let right = number_at(right_at, fields.right)?;
    Ok(Columns {
        left,
        middle,
        right,
    })
}

impl Draft {
    /// Adds the rows of a plan file, or refuses it and leaves the draft.
    #[tactic(auto, using(crate::proofs::Loading::file_long, crate::proofs::Loading::file_open, crate::proofs::Loading::file_empty))]
    pub fn load(&mut self, file: &[u8]) -> Result<(), FileRefusal>
        ensures answer { result ≡ answer (with_file self.old.table.entries file.now) }
        ensures left { self.new.table.entries ≡ left (with_file self.old.table.entries file.now) self.old.table.entries }
        ensures rows { Accepted result self.old.table.entries file.now self.new.table.entries }
        ensures place { Refused result file.now }
    {
        if file.len() > MAX_FILE {
            return Err(FileRefusal::whole(Reason::TooLong));
        }
        if !ended(file) {
            return Err(FileRefusal::whole(Reason::NotEnded));
        }
        let unnamed = FileRefusal::whole(Reason::Names);
        let (names, rest) = text::split_once(file, b'\n').ok_or(unnamed)?;
        let header = Header::read(names).ok_or(unnamed)?;
        let mut next = Draft { table: self.table };
        next.add_lines(header, rest, names.len() + 1)?;
        self.table = next.table;
        Ok(())
    }

    // Adds the rows of the lines of values, the first of which is line 2 and begins at `byte`.
    // Where one is refused, the rows of those before it stay.
    fn add_lines(&mut self, header: Header, text: &[u8], byte: usize) -> Result<(), FileRefusal>
        requires { byte + length text.now ≤ 4096 }
        ensures answer { result ≡ answer (with_lines header self.old.table.entries 2 byte (lines text.now)) }
        ensures left { OnOk result (self.new.table.entries ≡ left (with_lines header self.old.table.entries 2 byte (lines text.now)) self.old.table.entries) }
    {
        for line in Lines::new(text, 2, byte) {
            self.add_line(header, line)?;
        }
        Ok(())
    }

    // Adds the row of one line, or refuses it and leaves the draft.
    #[tactic(auto, unfolding(crate::specs::Files::with_line))]
    fn add_line(&mut self, header: Header, line: Line) -> Result<(), FileRefusal>
        ensures answer { result ≡ answer (with_line header self.old.table.entries line.entry.number line.entry.byte line.entry.text.now) }
        ensures left { self.new.table.entries ≡ left (with_line header self.old.table.entries line.entry.number line.entry.byte line.entry.text.now) self.old.table.entries }
    {
        let values = values(line.text).map_err(|fault| FileRefusal {
            reason: fault.reason,
            line: line.number,
            byte: line.byte + fault.at,
        })?;
        let channel = header.under(Column::Channel, values);
        let rate = header.under(Column::Rate, values);
        let first = header.under(Column::First, values);
        self.add(channel, rate, first)
            .map_err(|refusal| FileRefusal {
                reason: refusal.into(),
                line: line.number,
                byte: line.byte,
            })
    }
}
