// A bit received: what it concludes, and what it leaves.
ghost use Rattle.std.specs.Prelude.{◌≡◌, Some};
ghost use Rattle.channel_plan.specs.Tables.{owner_of};
ghost use Rattle.station.specs.Hearing.{concluded_event, concluded_line, event, fault_at, forgotten, slot_event, slot_line, stepped_line};

use crate::event::{Delivery, Event, Fault};
use crate::line::{ChannelRecord, Line};
use crate::slot::Slot;
use channel_plan::Plan;
use frame::Justification;
use reception::{Conclusion, FaultKind};

// Forgets the alignment bits last received.
fn forget(records: &mut [ChannelRecord])
    ensures { records.new ≡ forgotten records.old }
{
    for record in records.iter_mut() {
        record.received = None;
    }
}

impl Line {
    // A fault that shows at the bit just received.
    fn fault(&self, kind: FaultKind, channel: u16) -> Fault
        ensures { result ≡ fault_at self.now kind channel }
    {
        Fault {
            kind,
            channel,
            bits: self.receiver.bits,
        }
    }

    // The word of a slot.
    fn hear_slot(&mut self, plan: &Plan, slot: u16, word: u16) -> Event
        ensures event { result ≡ slot_event (owner_of plan.now.table slot) self.old word }
        ensures left { self.new ≡ slot_line (owner_of plan.now.table slot) self.old word }
    {
        let Some(channel) = plan.owner(slot) else {
            return Event::nothing();
        };
        let Slot { envelope, align } = Slot::from(word);
        let repeated = self.records[usize::from(channel) - 1].receive(align);
        Event {
            given: Some(Delivery { channel, envelope }),
            fault: repeated.then_some(self.fault(FaultKind::EnvelopeAlignment, channel)),
            taken: None,
        }
    }

    // What the receiver concluded, with the plan and the channel records.
    fn conclude(&mut self, plan: &Plan, conclusion: Conclusion) -> Event
        ensures event { result ≡ concluded_event (owner_of plan.now.table) self.old (Some conclusion) }
        ensures left { self.new ≡ concluded_line (owner_of plan.now.table) self.old (Some conclusion) }
    {
        match conclusion {
            Conclusion::Word { slot, bits } => self.hear_slot(plan, u16::from(slot), bits),
            Conclusion::Fault(kind) => {
                if kind == FaultKind::Regained {
                    forget(&mut self.records);
                }
                Event::from(self.fault(kind, 0))
            }
            Conclusion::Justification(Some(taken)) => Event {
                taken: Some(taken),
                ..Event::nothing()
            },
            Conclusion::Justification(None) => Event {
                taken: Some(Justification::Unchanged),
                ..Event::from(self.fault(FaultKind::Words, 0))
            },
        }
    }

    /// Takes the next bit, the lowest of `bit`.
    #[tactic(auto, unfolding(crate::specs::Hearing::event, crate::specs::Hearing::stepped_line))]
    pub fn hear(&mut self, plan: &Plan, bit: u8) -> Event
        ensures event { result ≡ event (owner_of plan.now.table) self.old bit }
        ensures left { self.new ≡ stepped_line (owner_of plan.now.table) self.old bit }
    {
        match self.receiver.step(self.mode, bit) {
            Some(conclusion) => self.conclude(plan, conclusion),
            None => Event::nothing(),
        }
    }
}
