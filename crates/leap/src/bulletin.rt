// Bulletins, by which a leap table is carried on.
ghost use Rattle.std.specs.Prelude.{Some};
ghost use Rattle.leap.specs.Change.{Decodes, unknown_words};

use std::error::Error;
use std::fmt;

/// A bulletin as it was announced: nothing in it is checked.
#[derive(Clone, Copy, PartialEq, Eq, Debug)]
pub struct Bulletin {
    /// 0 for none, 1 for a second inserted and 2 for a second deleted, right before the day.
    // A number and no `Change`: a bulletin may be announced with a number that is none, which `renew` refuses.
    pub change: u8,
    /// 0 where nothing changes
    pub day: u32,
    /// the day on which the table will expire
    pub expiry: u32,
}

/// What a bulletin announces.
#[derive(Clone, Copy, PartialEq, Eq, Debug)]
pub enum Change {
    Unchanged,
    Inserted,
    Deleted,
}

/// A number that no change has.
#[derive(Clone, Copy, PartialEq, Eq, Debug)]
pub struct UnknownChange(pub u8);

impl TryFrom<u8> for Change {
    type Error = UnknownChange;

    ghost try_from_gives = { Decodes };

    fn try_from(code: u8) -> Result<Self, UnknownChange> {
        match code {
            0 => Ok(Change::Unchanged),
            1 => Ok(Change::Inserted),
            2 => Ok(Change::Deleted),
            _ => Err(UnknownChange(code)),
        }
    }
}

impl fmt::Display for UnknownChange {
    ghost output = { λ e. Some (unknown_words e.0) };

    fn fmt<W: fmt::Write>(&self, f: &mut fmt::Formatter<W>) -> fmt::Result {
        write!(f, "no change has the number {}", self.0)
    }
}

impl Error for UnknownChange {}
