// Sending a frame.
ghost use Rattle.std.specs.Prelude.{◌≡◌, ◌≤◌, length, IfOk, Ok};
ghost use Rattle.channel_plan.specs.Tables.{owner_of};
ghost use Rattle.frame.specs.Modes.{frame_length};
ghost use Rattle.station.specs.Frames.{allowed, judged, next_check, sent_accounts, sent_answer, sent_buffer, sent_line};
ghost use Rattle.station.specs.Sending.{OfBytes};

use crate::line::Line;
use crate::refusal::SendRefusal;
use crate::station::Station;
use bank::Bank;
use channel_plan::Plan;
use frame::check::remainder_of;
use frame::content::LONGEST;
use frame::{Content, Justification, Mode};

// The justification by its number, where the mode allows it.
fn allowed(mode: Mode, number: i8) -> Option<Justification>
    ensures { result ≡ allowed mode number }
{
    match mode {
        Mode::Synchronous => (number == 0).then_some(Justification::Unchanged),
        Mode::Justified => Justification::try_from(number).ok(),
    }
}

// The justification of the frame, or why none is sent.
fn judge(mode: Mode, number: i8, buffer: &[u8]) -> Result<Justification, SendRefusal>
    ensures { result ≡ judged mode number buffer.now }
{
    let justification = allowed(mode, number).ok_or(SendRefusal::Justification)?;
    if buffer.len() < LONGEST {
        return Err(SendRefusal::Buffer);
    }
    Ok(justification)
}

// The check bits of the frame after this one.
fn next_check(mode: Mode, frame: &[u8]) -> u16
    ensures { result ≡ next_check mode frame.now }
{
    match mode {
        Mode::Synchronous => remainder_of(frame),
        Mode::Justified => 65535,
    }
}

impl<B: Bank> Station<B> {
    /// Sends a frame into the front of the buffer, and answers how many bits it has; or refuses, and leaves everything.
    // The buffer is the caller's, and the bytes beyond the frame stay, since nothing is allocated.
    pub fn send(&mut self, justification: i8, buffer: &mut [u8]) -> Result<usize, SendRefusal>
        ensures answer { result ≡ sent_answer (judged self.old.line.mode justification buffer.old) }
        ensures buffer { buffer.new ≡ sent_buffer B.meaning (owner_of self.old.plan.table) (B.account self.old.bank) self.old.line (judged self.old.line.mode justification buffer.old) buffer.old }
        ensures bytes { IfOk result (λ n. OfBytes B.meaning (owner_of self.old.plan.table) (B.account self.old.bank)) }
        ensures line { self.new.line ≡ sent_line B.meaning (owner_of self.old.plan.table) (B.account self.old.bank) self.old.line (judged self.old.line.mode justification buffer.old) }
        ensures accounts { B.account self.new.bank ≡ sent_accounts B.meaning (owner_of self.old.plan.table) (B.account self.old.bank) self.old.line (judged self.old.line.mode justification buffer.old) }
        ensures plan { self.new.plan ≡ self.old.plan }
        ensures faults { self.new.faults ≡ self.old.faults }
    {
        let justification = judge(self.line.mode, justification, buffer)?;
        Ok(
            self.line
                .send(&self.plan, &mut self.bank, justification, buffer),
        )
    }
}

impl Line {
    // Sends a frame into a buffer that is long enough.
    fn send<B: Bank>(
        &mut self,
        plan: &Plan,
        bank: &mut B,
        justification: Justification,
        buffer: &mut [u8],
    ) -> usize
        requires { 2561 ≤ length buffer.old }
        ensures answer { result ≡ frame_length justification }
        ensures buffer { buffer.new ≡ sent_buffer B.meaning (owner_of plan.now.table) (B.account bank.old) self.old (Ok justification) buffer.old }
        ensures bytes { OfBytes B.meaning (owner_of plan.now.table) (B.account bank.old) }
        ensures line { self.new ≡ sent_line B.meaning (owner_of plan.now.table) (B.account bank.old) self.old (Ok justification) }
        ensures accounts { B.account bank.new ≡ sent_accounts B.meaning (owner_of plan.now.table) (B.account bank.old) self.old (Ok justification) }
    {
        let mode = self.mode;
        let blocked = self.receiver.state.is_blocked();
        let check = self.check;
        let words = self.send_words(plan, bank);
        let content = Content {
            blocked,
            check,
            justification,
            words,
        };
        let length = content.fill(mode, buffer).unwrap();
        self.check = next_check(mode, &buffer[..length]);
        length
    }
}
