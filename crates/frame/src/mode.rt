// Modes of a bearer, and the justification of a frame.
ghost use Rattle.std.specs.Prelude.{◌≡◌, ◌++◌, Some, codes, ok_or};
ghost use Rattle.std.specs.Fmt.{signed_decimal};
ghost use Rattle.frame.specs.Modes.{frame_length, justification_of, service_word};

use std::error::Error;
use std::fmt;

/// Whether frames have one length, or are justified.
#[derive(Clone, Copy, Debug, PartialEq, Eq)]
pub enum Mode {
    Synchronous,
    Justified,
}

/// Whether a frame has a bit more or less than 2,560.
#[derive(Clone, Copy, Debug, PartialEq, Eq)]
pub enum Justification {
    Deleted,
    Unchanged,
    Added,
}

impl Justification {
    /// How many bits a frame then has.
    pub fn frame_length(self) -> usize
        ensures { result ≡ frame_length self }
    {
        match self {
            Justification::Deleted => 2559,
            Justification::Unchanged => 2560,
            Justification::Added => 2561,
        }
    }

    /// The service word that tells it, three bits.
    // A justification has two more numbers, its length and its own, so this is no `From`.
    pub fn service_word(self) -> u8
        ensures { result ≡ service_word self }
    {
        match self {
            Justification::Deleted => 0b001,
            Justification::Unchanged => 0b010,
            Justification::Added => 0b100,
        }
    }
}

/// A number, other than -1, 0 and 1, that is that of no justification.
#[derive(Clone, Copy, Debug, PartialEq, Eq)]
pub struct UnknownJustification(pub i8);

/// The justification by its number, -1, 0 or 1.
impl TryFrom<i8> for Justification {
    type Error = UnknownJustification;

    ghost try_from_gives = { λ number r. r ≡ ok_or (justification_of number) (record { 0 = number }) };

    fn try_from(number: i8) -> Result<Self, UnknownJustification> {
        match number {
            -1 => Ok(Justification::Deleted),
            0 => Ok(Justification::Unchanged),
            1 => Ok(Justification::Added),
            _ => Err(UnknownJustification(number)),
        }
    }
}

impl fmt::Display for UnknownJustification {
    ghost output = { λ unknown. Some (codes "no justification has the number " ++ signed_decimal unknown.0) };

    fn fmt<W: fmt::Write>(&self, f: &mut fmt::Formatter<W>) -> fmt::Result {
        write!(f, "no justification has the number {}", self.0)
    }
}

impl Error for UnknownJustification {}
