// The licence event: what became of a seat.
ghost use Rattle.std.specs.Prelude.{◌≡◌, Some};
ghost use Rattle.calls.specs.Event.{Names, action_code, action_words, unknown_words};

use std::error::Error;
use std::fmt;

/// What became of a seat.
#[derive(Clone, Copy, PartialEq, Eq, Debug)]
pub enum Action {
    Taken,
    GivenBack,
    Denied,
}

/// A byte that no action goes by. (Its like stand for changes and kinds, each with its own sentence.)
#[derive(Clone, Copy, PartialEq, Eq, Debug)]
pub struct UnknownAction(pub u8);

/// A seat of a tool, and what was done with it.
#[derive(Clone, Copy, PartialEq, Eq, Debug)]
pub struct LicenceEvent {
    pub action: Action,
    pub seat: u32,
    pub tool: u16,
}

// The action that a frame writes as a byte, if there is one.
impl TryFrom<u8> for Action {
    type Error = UnknownAction;

    ghost try_from_gives = { Names };

    fn try_from(code: u8) -> Result<Action, UnknownAction> {
        match code {
            1 => Ok(Action::Taken),
            2 => Ok(Action::GivenBack),
            3 => Ok(Action::Denied),
            _ => Err(UnknownAction(code)),
        }
    }
}

// The byte that a frame writes for an action: a match, as the frame names the bytes and not the enum.
impl From<Action> for u8 {
    ghost from_gives = { λ action code. code ≡ action_code action };

    fn from(action: Action) -> u8 {
        match action {
            Action::Taken => 1,
            Action::GivenBack => 2,
            Action::Denied => 3,
        }
    }
}

// Actions in words, for people. Programs go by the bytes.
impl fmt::Display for Action {
    ghost output = { λ action. Some (action_words action) };

    fn fmt<W: fmt::Write>(&self, f: &mut fmt::Formatter<W>) -> fmt::Result {
        f.pad(match self {
            Action::Taken => "taken",
            Action::GivenBack => "given back",
            Action::Denied => "denied",
        })
    }
}

impl fmt::Display for UnknownAction {
    ghost output = { λ e. Some (unknown_words e.0) };

    fn fmt<W: fmt::Write>(&self, f: &mut fmt::Formatter<W>) -> fmt::Result {
        write!(f, "no action goes by the byte {}", self.0)
    }
}

impl Error for UnknownAction {}
