// The receiver: what a bit does depends on the state and the bit's role together.
ghost use Rattle.std.specs.Prelude.{◌≡◌, []};
ghost use Rattle.reception.specs.declared.progress.Heard.TheVariants.{Alarm};
ghost use Rattle.reception.specs.declared.receiver.Conclusion.TheVariants.{Fault};
ghost use Rattle.reception.specs.declared.receiver.FaultKind.TheVariants.{Lost};
ghost use Rattle.reception.specs.declared.state.Reception.TheVariants.{Hunting};
ghost use Rattle.reception.specs.Hunted.{HuntsOn, hunt_after};
ghost use Rattle.reception.specs.Steps.{concluded, conclusion, fresh_receiver, heard_by, hunting_state, is_blocked, kind_number, lost, place_in, placed_state, state_number, stepped, wrong_in};

use crate::progress::Heard;
use crate::state::{Hunt, Progress, Receiver, Reception, Wait};
use frame::place::role_at;
use frame::{Justification, Mode, Role};
use std::mem;

/// The kinds of faults.
#[derive(Clone, Copy, Debug, PartialEq, Eq)]
pub enum FaultKind {
    /// alignment was lost
    Lost,
    /// alignment was regained: proving begins
    Regained,
    /// a check was wrong
    Check,
    /// an alignment bit of an envelope was wrong
    EnvelopeAlignment,
    /// four words without a majority of a service word
    Words,
    /// the far alarm began
    AlarmBegun,
    /// the far alarm ended
    AlarmEnded,
}

impl From<FaultKind> for u8 {
    ghost from_gives = { λ kind number. number ≡ kind_number kind };

    fn from(kind: FaultKind) -> u8 {
        match kind {
            FaultKind::Lost => 1,
            FaultKind::Regained => 2,
            FaultKind::Check => 3,
            FaultKind::EnvelopeAlignment => 4,
            FaultKind::Words => 5,
            FaultKind::AlarmBegun => 6,
            FaultKind::AlarmEnded => 7,
        }
    }
}

/// What a bit received shows, where it shows something.
#[derive(Clone, Copy, Debug, PartialEq, Eq)]
pub enum Conclusion {
    /// the ten bits of a slot are there
    Word { slot: u8, bits: u16 },
    Fault(FaultKind),
    /// the frame's words are there: the justification that they tell, or none, where they dispute it and the frame is
    /// taken to be unchanged
    Justification(Option<Justification>),
}

impl Reception {
    /// Aligned, and the next bit received begins a frame.
    pub fn placed() -> Reception
        ensures { result ≡ placed_state }
    {
        Reception::Aligned(Progress::placed(), 0)
    }

    /// A hunt that begins with the next bit received.
    pub fn hunting() -> Reception
        ensures is { result ≡ hunting_state }
        ensures begins { result ≡ Hunting (hunt_after []) }
    {
        Reception::Hunting(Hunt::new())
    }

    /// How many wrong patterns came in a row.
    pub fn wrong(&self) -> u8
        ensures { result ≡ wrong_in self.now }
    {
        match self {
            Reception::Hunting(_) | Reception::Pending(_) | Reception::Proving(_) => 0,
            Reception::Aligned(_, wrong) => *wrong,
        }
    }

    /// Whether reception is blocked.
    pub fn is_blocked(&self) -> bool
        ensures { result ≡ is_blocked self.now }
    {
        matches!(self, Reception::Hunting(_) | Reception::Pending(_))
    }

    // The place of the next bit. While blocked it is 0, and its role isn't looked at: no Option, since a step is one
    // match on the state and the role together.
    fn place(&self) -> u16
        ensures { result ≡ place_in self.now }
    {
        match self {
            Reception::Hunting(_) | Reception::Pending(_) => 0,
            Reception::Proving(progress) | Reception::Aligned(progress, _) => progress.place,
        }
    }
}

/// Hunting 0, pending 1, proving 2, aligned 3.
impl From<&Reception> for u8 {
    ghost from_gives = { λ state number. number ≡ state_number state.now };

    fn from(state: &Reception) -> u8 {
        match state {
            Reception::Hunting(_) => 0,
            Reception::Pending(_) => 1,
            Reception::Proving(_) => 2,
            Reception::Aligned(_, _) => 3,
        }
    }
}

impl Receiver {
    /// A receiver at making.
    pub fn new(state: Reception) -> Receiver
        ensures { result ≡ fresh_receiver state }
    {
        Receiver {
            state,
            alarm: true,
            errored: 0,
            bits: 0,
        }
    }

    // Begins a hunt, since alignment is lost.
    fn lose(&mut self) -> Conclusion
        ensures says { result ≡ Fault Lost }
        ensures left { self.new ≡ lost self.old }
    {
        self.state = Reception::hunting();
        Conclusion::Fault(FaultKind::Lost)
    }

    // What a padding bit that ends no pattern shows, and leaves of the alarm and the errored frames.
    fn conclude(&mut self, heard: Heard, bit: u8) -> Option<Conclusion>
        ensures says { result ≡ concluded self.old heard bit }
        ensures left { self.new ≡ heard_by self.old heard bit }
    {
        match heard {
            Heard::RightPattern | Heard::WrongPattern => None,
            Heard::Alarm => self.hear_alarm(bit),
            Heard::WrongCheck => {
                self.errored = self.errored.saturating_add(1);
                Some(Conclusion::Fault(FaultKind::Check))
            }
            Heard::Words(told) => Some(Conclusion::Justification(told)),
        }
    }

    // Compares the far alarm bit with the last.
    fn hear_alarm(&mut self, bit: u8) -> Option<Conclusion>
        ensures says { result ≡ concluded self.old Alarm bit }
        ensures left { self.new ≡ heard_by self.old Alarm bit }
    {
        let alarm = bit == 1;
        match (mem::replace(&mut self.alarm, alarm), alarm) {
            (true, false) => Some(Conclusion::Fault(FaultKind::AlarmBegun)),
            (false, true) => Some(Conclusion::Fault(FaultKind::AlarmEnded)),
            (true, true) | (false, false) => None,
        }
    }

    /// Takes the next bit, the lowest of `bit`, and answers what it shows.
    #[tactic(auto, unfolding(crate::specs::Steps::conclusion, crate::specs::Steps::stepped))]
    pub fn step(&mut self, mode: Mode, bit: u8) -> Option<Conclusion>
        ensures says { result ≡ conclusion mode self.old bit }
        ensures left { self.new ≡ stepped mode self.old bit }
        ensures hunt { HuntsOn self.old bit self.new }
    {
        let bit = bit % 2;
        self.bits = self.bits.saturating_add(1);
        let role = role_at(self.state.place());
        match (&mut self.state, role) {
            (Reception::Hunting(hunt), _) => {
                if hunt.hear(bit) {
                    self.state = Reception::Pending(Wait::new());
                }
                None
            }
            (Reception::Pending(wait), _) => {
                let before = wait.hear(bit)?;
                self.state = Reception::Proving(Progress::joined(before));
                Some(Conclusion::Fault(FaultKind::Regained))
            }
            (Reception::Proving(progress), Role::Padding { subframe, index }) => {
                match progress.hear_padding(mode, subframe, index, bit)? {
                    Heard::RightPattern => {
                        self.state = Reception::Aligned(*progress, 0);
                        None
                    }
                    Heard::WrongPattern => Some(self.lose()),
                    heard => self.conclude(heard, bit),
                }
            }
            (Reception::Aligned(progress, wrong), Role::Padding { subframe, index }) => {
                match progress.hear_padding(mode, subframe, index, bit)? {
                    Heard::RightPattern => {
                        *wrong = 0;
                        None
                    }
                    Heard::WrongPattern if *wrong < 2 => {
                        *wrong += 1;
                        None
                    }
                    Heard::WrongPattern => Some(self.lose()),
                    heard => self.conclude(heard, bit),
                }
            }
            // These states have arms of their own, since a proof doesn't know what is written through a binding of both.
            (Reception::Proving(progress), Role::Payload { slot, bit: index }) => progress
                .hear_payload(mode, index, bit)
                .map(|bits| Conclusion::Word { slot, bits }),
            (Reception::Aligned(progress, _), Role::Payload { slot, bit: index }) => progress
                .hear_payload(mode, index, bit)
                .map(|bits| Conclusion::Word { slot, bits }),
            (Reception::Proving(progress), Role::Added) => {
                progress.advance(mode, bit);
                None
            }
            (Reception::Aligned(progress, _), Role::Added) => {
                progress.advance(mode, bit);
                None
            }
        }
    }
}
