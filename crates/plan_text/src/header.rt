// The names line of a plan file.
ghost use Rattle.std.specs.Prelude.{◌≡◌};
ghost use Rattle.std.specs.Result.{result_ok};
ghost use Rattle.plan_text.specs.Headers.{column_of, header_of, under};

use crate::text::{self, Columns};

/// What a column of a plan file holds.
#[derive(Clone, Copy, Debug, PartialEq, Eq)]
pub enum Column {
    Channel,
    Rate,
    First,
}

/// A name that no column has.
#[derive(Clone, Copy, Debug, PartialEq, Eq)]
pub struct UnknownColumn;

/// The columns of a plan file from left to right, each once.
#[derive(Clone, Copy, Debug, PartialEq, Eq)]
pub struct Header {
    pub columns: Columns<Column>,
}

impl TryFrom<&[u8]> for Column {
    type Error = UnknownColumn;

    ghost try_from_gives = { λ name column. result_ok column ≡ column_of name.now };

    // No match on the bytes: it is proved byte by byte, and the goal that it leaves for the longest name stays open.
    fn try_from(name: &[u8]) -> Result<Self, UnknownColumn> {
        if text::is_word(name, b"channel") {
            Ok(Column::Channel)
        } else if text::is_word(name, b"rate") {
            Ok(Column::Rate)
        } else if text::is_word(name, b"first") {
            Ok(Column::First)
        } else {
            Err(UnknownColumn)
        }
    }
}

impl Header {
    /// The three names in any order.
    pub fn read(line: &[u8]) -> Option<Header>
        ensures { result ≡ header_of line.now }
    {
        let names = text::three_fields(line)?;
        let left = Column::try_from(names.left).ok()?;
        let middle = Column::try_from(names.middle).ok()?;
        let right = Column::try_from(names.right).ok()?;
        if left == middle || left == right || middle == right {
            return None;
        }
        Some(Header {
            columns: Columns {
                left,
                middle,
                right,
            },
        })
    }

    /// The value under a name.
    pub fn under(self, name: Column, values: Columns<u16>) -> u16
        ensures { result ≡ under self name values.left values.middle values.right }
    {
        if self.columns.left == name {
            values.left
        } else if self.columns.middle == name {
            values.middle
        } else {
            values.right
        }
    }
}
