// The kinds of frames.
ghost use Rattle.std.specs.Prelude.{◌≡◌, Some};
ghost use Rattle.wire.specs.Kind.{kind_byte, IsKindOf, unknown_words};

use std::error::Error;
use std::fmt;

/// What a frame's first byte tells, and the first byte of its answer too.
#[derive(Clone, Copy, PartialEq, Eq, Debug)]
pub enum Kind {
    Put = 1,
    Close = 2,
    Take = 3,
    Renew = 4,
}

/// What stands in place of a kind in the answer to a line that was no frame. (A byte and no `Option<Kind>`: it is written in one place.)
pub const NO_KIND: u8 = 0;

/// A byte that no frame begins with.
#[derive(Clone, Copy, PartialEq, Eq, Debug)]
pub struct UnknownKind(pub u8);

// The kind that a byte stands for, if there is one.
impl TryFrom<u8> for Kind {
    type Error = UnknownKind;

    ghost try_from_gives = { IsKindOf };

    fn try_from(byte: u8) -> Result<Kind, UnknownKind> {
        match byte {
            1 => Ok(Kind::Put),
            2 => Ok(Kind::Close),
            3 => Ok(Kind::Take),
            4 => Ok(Kind::Renew),
            _ => Err(UnknownKind(byte)),
        }
    }
}

// The byte that stands for a kind.
impl From<Kind> for u8 {
    ghost from_gives = { λ kind byte. byte ≡ kind_byte kind };

    fn from(kind: Kind) -> u8 {
        kind as u8
    }
}

impl fmt::Display for UnknownKind {
    ghost output = { λ e. Some (unknown_words e.0) };

    fn fmt<W: fmt::Write>(&self, f: &mut fmt::Formatter<W>) -> fmt::Result {
        write!(f, "no frame begins with the byte {}", self.0)
    }
}

impl Error for UnknownKind {}
