// Why a row or a plan file is refused.
ghost use Rattle.std.specs.Prelude.{◌≡◌};
ghost use Rattle.channel_plan.specs.declared.refusal.Reason.TheVariants.{Row};
ghost use Rattle.channel_plan.specs.declared.refusal.RowRefusal.TheVariants.{UnknownRate};
ghost use Rattle.channel_plan.specs.Files.{wholly};
ghost use Rattle.channel_plan.specs.Refusals.{file_number, row_number};

use crate::rate;

/// Why a row is refused: the first of these that holds, in this order.
#[derive(Clone, Copy, Debug, PartialEq, Eq)]
pub enum RowRefusal {
    /// the channel is not 1 to 80
    NoChannel,
    UnknownRate,
    /// the first slot is not below the period
    FirstSlot,
    ChannelPresent,
    /// the group has a row of another rate
    GroupRate,
    SlotTaken,
}

/// Its number.
impl From<RowRefusal> for u8 {
    ghost from_gives = { λ refusal n. n ≡ row_number refusal };

    fn from(refusal: RowRefusal) -> u8 {
        match refusal {
            RowRefusal::NoChannel => 1,
            RowRefusal::UnknownRate => 2,
            RowRefusal::FirstSlot => 3,
            RowRefusal::ChannelPresent => 4,
            RowRefusal::GroupRate => 5,
            RowRefusal::SlotTaken => 6,
        }
    }
}

impl From<rate::UnknownRate> for RowRefusal {
    ghost from_gives = { λ _ refusal. refusal ≡ UnknownRate };

    fn from(_unknown: rate::UnknownRate) -> Self {
        Self::UnknownRate
    }
}

/// Why a plan file is refused. The first three are of the whole file, the others of a line.
#[derive(Clone, Copy, Debug, PartialEq, Eq)]
pub enum Reason {
    /// over 4,096 bytes
    TooLong,
    /// the last byte does not end a line
    NotEnded,
    /// the names are wrong or missing
    Names,
    /// not three fields
    Fields,
    /// the field is no plain number
    Number,
    Row(RowRefusal),
}

/// Its number.
impl From<Reason> for u8 {
    ghost from_gives = { λ reason n. n ≡ file_number reason };

    fn from(reason: Reason) -> u8 {
        match reason {
            Reason::TooLong => 7,
            Reason::NotEnded => 11,
            Reason::Names => 8,
            Reason::Fields => 9,
            Reason::Number => 10,
            Reason::Row(refusal) => refusal.into(),
        }
    }
}

impl From<RowRefusal> for Reason {
    ghost from_gives = { λ refusal reason. reason ≡ Row refusal };

    fn from(refusal: RowRefusal) -> Self {
        Self::Row(refusal)
    }
}

/// Why a plan file is refused, and where: the line from 1, and the byte from 0 at which the field
/// begins that is no number, or for the other reasons of a line the line. Both are 0 where the reason
/// is of the whole file.
// What is told of any refusal has a line and a byte, so neither is an Option: 0 and 0 are told of the whole file.
#[derive(Clone, Copy, Debug, PartialEq, Eq)]
pub struct FileRefusal {
    pub reason: Reason,
    pub line: usize,
    pub byte: usize,
}

impl FileRefusal {
    // A refusal of the whole file.
    pub(crate) fn whole(reason: Reason) -> FileRefusal
        ensures { result ≡ wholly reason }
    {
        FileRefusal {
            reason,
            line: 0,
            byte: 0,
        }
    }
}
