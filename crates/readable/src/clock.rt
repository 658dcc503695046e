// The clocks of the standard bank.
ghost use Rattle.std.specs.Prelude.{◌≡◌, Some, IfErr};
ghost use Rattle.readable.specs.Clocks.{feed_number, clock_name, unknown_words, Named};

use std::error::Error;
use std::fmt;

#[derive(Clone, Copy, PartialEq, Eq, Debug)]
pub enum Clock {
    Tai,
    Utc,
    Posix,
    Smear,
    Ntp,
    Gps,
}

/// A word that no clock goes by.
#[derive(Clone, Copy, Debug)]
pub struct UnknownClock<'a>(pub &'a str);

impl Clock {
    /// In the order of their feeds.
    pub const ALL: [Clock; 6] = [
        Clock::Tai,
        Clock::Utc,
        Clock::Posix,
        Clock::Smear,
        Clock::Ntp,
        Clock::Gps,
    ];

    /// The clock's feed of the standard bank.
    pub fn feed(self) -> u8
        ensures { result ≡ feed_number self }
    {
        match self {
            Clock::Tai => 0,
            Clock::Utc => 1,
            Clock::Posix => 2,
            Clock::Smear => 3,
            Clock::Ntp => 4,
            Clock::Gps => 5,
        }
    }

    /// The word that the clock goes by.
    pub fn name(self) -> &'static str
        ensures { result.now ≡ clock_name self }
    {
        match self {
            Clock::Tai => "tai",
            Clock::Utc => "utc",
            Clock::Posix => "posix",
            Clock::Smear => "smear",
            Clock::Ntp => "ntp",
            Clock::Gps => "gps",
        }
    }
}

impl fmt::Display for Clock {
    ghost output = { λ clock. Some (clock_name clock) };

    fn fmt<W: fmt::Write>(&self, f: &mut fmt::Formatter<W>) -> fmt::Result {
        f.pad(self.name())
    }
}

impl<'a> TryFrom<&'a str> for Clock {
    type Error = UnknownClock<'a>;

    ghost try_from_gives = { λ word r. Named word.now r × IfErr r (λ e. e.0.now ≡ word.now) };

    fn try_from(word: &'a str) -> Result<Clock, UnknownClock<'a>> {
        match word {
            "tai" => Ok(Clock::Tai),
            "utc" => Ok(Clock::Utc),
            "posix" => Ok(Clock::Posix),
            "smear" => Ok(Clock::Smear),
            "ntp" => Ok(Clock::Ntp),
            "gps" => Ok(Clock::Gps),
            _ => Err(UnknownClock(word)),
        }
    }
}

impl fmt::Display for UnknownClock<'_> {
    ghost output = { λ e. Some (unknown_words e.0.now) };

    fn fmt<W: fmt::Write>(&self, f: &mut fmt::Formatter<W>) -> fmt::Result {
        let word = self.0;
        write!(
            f,
            "no clock is called {word}: expected tai, utc, posix, smear, ntp or gps"
        )
    }
}

impl Error for UnknownClock<'_> {}
