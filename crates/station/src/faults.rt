// The faults that wait to be read.
ghost use Rattle.std.specs.Prelude.{◌≡◌};
ghost use Rattle.ring.specs.Queue.{oldest};
ghost use Rattle.station.specs.Faults.{no_faults, noted, told_by, without_first};

use crate::event::Fault;
use reception::FaultKind;
use ring::Ring;

/// How many faults can wait.
pub const PLACES: usize = 64;

// What lies in a place that was never used.
const NO_FAULT: Fault = Fault {
    kind: FaultKind::Lost,
    channel: 0,
    bits: 0,
};

/// A queue of 64 records, and how many later ones were lost.
// The records lie in the station's own memory, as a ring.
// It can be copied, so it has no model: the queue doesn't tell where the oldest place of the ring lies.
#[derive(Clone, Copy)]
pub struct Faults {
    ring: Ring,
    memory: [Fault; PLACES],
    /// up to 65,535
    pub lost: u16,
}

impl Faults {
    pub(crate) fn new() -> Faults
        ensures { told_by result ≡ no_faults }
    {
        Faults {
            ring: Ring::new(0, PLACES),
            memory: [NO_FAULT; PLACES],
            lost: 0,
        }
    }

    // Adds a fault, or counts it as lost where 64 wait.
    pub(crate) fn note(&mut self, fault: Fault)
        ensures { told_by self.new ≡ noted (told_by self.old) fault }
    {
        if !self.ring.put(&mut self.memory, fault) {
            self.lost = self.lost.saturating_add(1);
        }
    }

    /// Takes the oldest fault out.
    pub fn take(&mut self) -> Option<Fault>
        ensures answer { result ≡ oldest (told_by self.old).waiting }
        ensures left { told_by self.new ≡ without_first (told_by self.old) }
    {
        self.ring.take(&self.memory)
    }
}
