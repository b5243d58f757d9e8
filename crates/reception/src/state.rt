// What reception keeps.

/// A hunt for the frame alignment pattern.
#[derive(Clone, Copy, Debug, PartialEq, Eq)]
pub struct Hunt {
    /// the last fourteen bits of each of the sixteen phases, 0 for those not received
    pub registers: [u16; 16],
    /// how many bits the hunt has had, modulo 256
    pub count: u8,
}

/// The wait for the two bits that name the subframe.
#[derive(Clone, Copy, Debug, PartialEq, Eq)]
pub struct Wait {
    /// how many bits came since the pattern, below 32
    pub since: u8,
    /// the first of the two
    pub high: bool,
}

/// The service words of a frame.
#[derive(Clone, Copy, Debug, PartialEq, Eq)]
pub struct Service {
    /// the bits so far of the word that is being received
    pub partial: u8,
    /// the word of each subframe, once it was received
    pub words: [Option<u8>; 4],
}

/// The check of a frame.
#[derive(Clone, Copy, Debug, PartialEq, Eq)]
pub struct Checking {
    /// the check bits so far
    pub received: u16,
    /// the remainder of the frame's bits so far
    pub remainder: u16,
    /// whether the frame was received from its first bit
    // The remainder is no `Option` in its place, since each bit divides it, of a whole frame or not.
    pub whole: bool,
    /// what its check bits should be, where that is known
    pub expected: Option<u16>,
}

/// How far a frame was received.
#[derive(Clone, Copy, Debug, PartialEq, Eq)]
pub struct Progress {
    /// of the next bit
    pub place: u16,
    /// the bits so far of the slot that is being received
    pub word: u16,
    /// whether the bits so far of this subframe's pattern and number are right
    pub right: bool,
    pub service: Service,
    pub check: Checking,
}

/// How far reception is. Hunting and pending are blocked.
#[derive(Clone, Copy, Debug, PartialEq, Eq)]
pub enum Reception {
    Hunting(Hunt),
    /// a pattern was found, and its subframe is not known yet
    Pending(Wait),
    /// in step, until the next pattern shows whether rightly
    Proving(Progress),
    /// with how many wrong patterns came in a row
    Aligned(Progress, u8),
}

/// The receiving end of a bearer.
#[derive(Clone, Copy, Debug, PartialEq, Eq)]
pub struct Receiver {
    pub state: Reception,
    /// the far alarm bit last received
    pub alarm: bool,
    /// how many frames had a wrong check, up to 65,535
    pub errored: u16,
    /// how many bits were received, up to the largest number
    pub bits: u64,
}
