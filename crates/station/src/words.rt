// Taking from the bank for the slots of a frame.
ghost use Rattle.std.specs.Prelude.{◌≡◌, ◌<◌, ◌≤◌, IfSome};
ghost use Rattle.channel_plan.specs.Tables.{owner_of};
ghost use Rattle.station.specs.Lines.{with_records};
ghost use Rattle.station.specs.Sending.{OfByte, OfBytes, accounts_past, line_past, records_for, slot_word, taken_for, words};

use crate::line::Line;
use crate::slot::Slot;
use bank::{Bank, Envelope};
use channel_plan::Plan;

// Sent where a bank has nothing for an owned slot.
const FILLER: Envelope = Envelope {
    status: false,
    octet: 255,
};

// The word of a slot that nobody owns.
const UNOWNED: u16 = 1023;

// Plan and bank are handed in one by one: the plan is only read, so no clause has to say that it stays.
impl Line {
    // The word of one slot, whose owner is looked up once for its ten bits.
    fn send_slot<B: Bank>(&mut self, plan: &Plan, bank: &mut B, slot: u16) -> u16
        ensures word { result ≡ slot_word B.meaning (B.account bank.old) self.old.records (owner_of plan.now.table slot) }
        ensures accounts { B.account bank.new ≡ accounts_past B.meaning (owner_of plan.now.table slot) (B.account bank.old) }
        ensures line { self.new ≡ line_past (owner_of plan.now.table slot) self.old }
        ensures byte { OfByte B.meaning (B.account bank.old) (owner_of plan.now.table slot) }
        ensures known { IfSome (owner_of plan.now.table slot) (λ c. (0 < c) × (c ≤ 80)) }
    {
        let Some(channel) = plan.owner(slot) else {
            return UNOWNED;
        };
        let envelope = bank.take(channel).unwrap_or(FILLER);
        let align = self.records[usize::from(channel) - 1].alternate();
        u16::from(Slot { envelope, align })
    }

    // The words of all slots, in their order.
    pub(crate) fn send_words<B: Bank>(&mut self, plan: &Plan, bank: &mut B) -> [u16; 240]
        ensures words { result ≡ words B.meaning (owner_of plan.now.table) (B.account bank.old) self.old.records }
        ensures bytes { OfBytes B.meaning (owner_of plan.now.table) (B.account bank.old) }
        ensures accounts { B.account bank.new ≡ taken_for B.meaning (owner_of plan.now.table) (B.account bank.old) 240 }
        ensures line { self.new ≡ with_records (records_for (owner_of plan.now.table) self.old.records 240) self.old }
    {
        let mut words = [UNOWNED; 240];
        for (slot, word) in words.iter_mut().enumerate() {
            *word = self.send_slot(plan, bank, slot as u16);
        }
        words
    }
}
