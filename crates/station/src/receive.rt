// Receiving a run of bits.
ghost use Rattle.std.specs.Prelude.{◌≡◌, is_some, length};
ghost use Rattle.channel_plan.specs.Tables.{owner_of};
ghost use Rattle.station.specs.Faults.{told_by};
ghost use Rattle.station.specs.Hearing.{event, given_if, noted_if, stepped_line};
ghost use Rattle.station.specs.Pieces.{Pieces};
ghost use Rattle.station.specs.Receiving.{accepted, faults_in, give_all, given, line_after, note_all, received_accounts, received_answer, received_faults, received_line, refused_run};

use crate::faults::Faults;
use crate::line::Line;
use crate::refusal::ReceiveRefusal;
use crate::station::Station;
use bank::Bank;
use channel_plan::Plan;

/// How many bits a run has at the most.
pub const LONGEST_RUN: usize = 65536;

// Why a run is not received, if it is not.
// A `for` over the bytes: each is looked at before the first is used, which is the rule, so this is a loop in plain sight.
fn judge(run: &[u8]) -> Result<(), ReceiveRefusal>
    ensures { result ≡ accepted (refused_run run.now) }
{
    if run.len() > LONGEST_RUN {
        return Err(ReceiveRefusal::TooLong);
    }
    for byte in run {
        if *byte > 1 {
            return Err(ReceiveRefusal::NotABit);
        }
    }
    Ok(())
}

impl<B: Bank> Station<B> {
    /// Receives a run of bits, and answers how many it took and how many envelopes were given; or refuses, and leaves
    /// everything.
    pub fn receive(&mut self, run: &[u8]) -> Result<(usize, usize), ReceiveRefusal>
        ensures answer { result ≡ received_answer (owner_of self.old.plan.table) (refused_run run.now) self.old.line run.now }
        ensures line { self.new.line ≡ received_line (owner_of self.old.plan.table) (refused_run run.now) self.old.line run.now }
        ensures accounts { B.account self.new.bank ≡ received_accounts (owner_of self.old.plan.table) (refused_run run.now) self.old.line run.now B.meaning (B.account self.old.bank) }
        ensures faults { told_by self.new.faults ≡ received_faults (owner_of self.old.plan.table) (refused_run run.now) self.old.line run.now (told_by self.old.faults) }
        ensures plan { self.new.plan ≡ self.old.plan }
        ensures pieces { Pieces (owner_of self.old.plan.table) self.old.line run.now }
    {
        judge(run)?;
        let given = self
            .line
            .receive(&self.plan, &mut self.bank, &mut self.faults, run);
        Ok((run.len(), given))
    }
}

impl Line {
    // Takes the bits of a run, and answers how many envelopes were given.
    fn receive<B: Bank>(
        &mut self,
        plan: &Plan,
        bank: &mut B,
        faults: &mut Faults,
        run: &[u8],
    ) -> usize
        ensures count { result ≡ length (given (owner_of plan.now.table) self.old run.now) }
        ensures line { self.new ≡ line_after (owner_of plan.now.table) self.old run.now }
        ensures accounts { B.account bank.new ≡ give_all B.meaning (B.account bank.old) (given (owner_of plan.now.table) self.old run.now) }
        ensures faults { told_by faults.new ≡ note_all (told_by faults.old) (faults_in (owner_of plan.now.table) self.old run.now) }
    {
        let mut given = 0;
        for bit in run {
            if self.receive_bit(plan, bank, faults, *bit) {
                given += 1;
            }
        }
        given
    }

    // Takes the next bit, and answers whether it gave an envelope.
    fn receive_bit<B: Bank>(
        &mut self,
        plan: &Plan,
        bank: &mut B,
        faults: &mut Faults,
        bit: u8,
    ) -> bool
        ensures answer { result ≡ is_some (event (owner_of plan.now.table) self.old bit).given }
        ensures line { self.new ≡ stepped_line (owner_of plan.now.table) self.old bit }
        ensures accounts { B.account bank.new ≡ given_if B.meaning (event (owner_of plan.now.table) self.old bit).given (B.account bank.old) }
        ensures faults { told_by faults.new ≡ noted_if (event (owner_of plan.now.table) self.old bit).fault (told_by faults.old) }
    {
        let event = self.hear(plan, bit);
        if let Some(fault) = event.fault {
            faults.note(fault);
        }
        if let Some(delivery) = event.given {
            bank.give(delivery.channel, delivery.envelope);
        }
        event.given.is_some()
    }
}
