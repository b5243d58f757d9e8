// A station over any bank.
ghost use Rattle.std.specs.Prelude.{◌≡◌};
ghost use Rattle.reception.specs.Steps.{hunting_state, placed_state};
ghost use Rattle.station.specs.Faults.{no_faults, told_by};
ghost use Rattle.station.specs.Lines.{fresh_line};

use crate::faults::Faults;
use crate::line::Line;
use bank::Bank;
use channel_plan::Plan;
use frame::Mode;
use reception::Reception;

/// A sealed plan, a bank, the rest of its state, and the faults that wait.
#[derive(Drop)]
pub struct Station<B> {
    pub(crate) plan: Plan,
    pub(crate) bank: B,
    pub(crate) line: Line,
    pub(crate) faults: Faults,
}

impl<B: Bank> Station<B> {
    // A station whose reception is in that state.
    fn new(plan: Plan, bank: B, number: u8, mode: Mode, state: Reception) -> Station<B>
        ensures made { result ≡ record { plan = plan; bank = bank; line = fresh_line mode number state; faults = result.faults } }
        ensures faults { told_by result.faults ≡ no_faults }
    {
        Station {
            plan,
            bank,
            line: Line::new(mode, number, state),
            faults: Faults::new(),
        }
    }

    /// A station that is aligned, and whose next bit received begins a frame.
    pub fn placed(plan: Plan, bank: B, number: u8, mode: Mode) -> Station<B>
        ensures made { result ≡ record { plan = plan; bank = bank; line = fresh_line mode number placed_state; faults = result.faults } }
        ensures faults { told_by result.faults ≡ no_faults }
    {
        Station::new(plan, bank, number, mode, Reception::placed())
    }

    /// A station that begins to hunt for alignment.
    pub fn hunting(plan: Plan, bank: B, number: u8, mode: Mode) -> Station<B>
        ensures made { result ≡ record { plan = plan; bank = bank; line = fresh_line mode number hunting_state; faults = result.faults } }
        ensures faults { told_by result.faults ≡ no_faults }
    {
        Station::new(plan, bank, number, mode, Reception::hunting())
    }

    /// Exchanges the bank with another.
    pub fn swap_bank(&mut self, other: &mut B)
        ensures other { other.new ≡ self.old.bank }
        ensures left { self.new ≡ record { plan = self.old.plan; bank = other.old; line = self.old.line; faults = self.old.faults } }
    {
        std::mem::swap(&mut self.bank, other);
    }

    /// Takes the station apart: its bank, its line and its faults.
    pub fn into_parts(self) -> (B, Line, Faults)
        ensures { result ≡ (self.bank, self.line, self.faults) }
    {
        let Station {
            plan: _,
            bank,
            line,
            faults,
        } = self;
        (bank, line, faults)
    }
}
