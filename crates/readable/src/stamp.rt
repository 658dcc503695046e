// Stamps of the standard clocks: read, shown, and written for people.
ghost use Rattle.std.specs.Prelude.{◌≡◌, ◌/◌, ◌%◌, Some};
ghost use Rattle.clocks.specs.Banks.{bank_reads, bank_shows};
ghost use Rattle.standard.specs.Standard.{standard};
ghost use Rattle.readable.specs.Clocks.{feed_number};
ghost use Rattle.readable.specs.Stamps.{stamped, stamp_text, nanos_text, fraction_text};

use crate::clock::Clock;
use clocks::limits::SECOND;
use leap::table::LeapTable;
use refusals::refusal::Refusal;
use standard::bank::{read_standard, show_standard};
use std::fmt;

/// A stamp, and the clock that it is of.
#[derive(Clone, Copy, PartialEq, Eq, Debug)]
pub struct Stamp {
    pub clock: Clock,
    /// hi and lo
    pub fields: (u64, u64),
}

impl Stamp {
    /// The stamp that a clock shows at a tick.
    pub fn of(clock: Clock, table: &LeapTable, tick: u64) -> Result<Stamp, Refusal>
        ensures { result ≡ stamped clock (bank_shows standard table.now (feed_number clock) tick) }
    {
        let fields = show_standard(table, clock.feed(), tick)?;
        Ok(Stamp { clock, fields })
    }

    /// The tick that the stamp is read as.
    pub fn read(&self, table: &LeapTable) -> Result<u64, Refusal>
        ensures { result ≡ bank_reads standard table.now (feed_number self.now.clock) self.now.fields }
    {
        read_standard(table, self.clock.feed(), self.fields)
    }
}

// Each clock's stamps have a form of their own. Where a second is whole, no fraction is written.
impl fmt::Display for Stamp {
    ghost output = { λ s. Some (stamp_text s.clock s.fields.0 s.fields.1) };

    fn fmt<W: fmt::Write>(&self, f: &mut fmt::Formatter<W>) -> fmt::Result {
        let (hi, lo) = self.fields;
        match self.clock {
            Clock::Tai | Clock::Posix | Clock::Smear => write!(f, "{hi}{}", Nanos(lo)),
            Clock::Utc => {
                let (year, month, day) = apart(hi);
                let (hour, minute, second) = apart(lo / SECOND);
                let nanos = Nanos(lo % SECOND);
                write!(
                    f,
                    "{year:04}-{month:02}-{day:02}T{hour:02}:{minute:02}:{second:02}{nanos}"
                )
            }
            Clock::Ntp => write!(f, "{hi}{}", Fraction(lo)),
            Clock::Gps => write!(f, "week {hi}, {lo} ms"),
        }
    }
}

// Three fields that are written in one number, the last two with two digits each.
fn apart(number: u64) -> (u64, u64, u64)
    ensures { result ≡ (number / 10000, number / 100 % 100, number % 100) }
{
    (number / 10_000, number / 100 % 100, number % 100)
}

/// Nanoseconds after whole seconds, with as many groups of three digits as are of use.
#[derive(Clone, Copy)]
pub struct Nanos(pub u64);

impl fmt::Display for Nanos {
    ghost output = { λ nanos. Some (nanos_text nanos.0) };

    fn fmt<W: fmt::Write>(&self, f: &mut fmt::Formatter<W>) -> fmt::Result {
        match self.0 {
            0 => Ok(()),
            nanos if nanos % 1_000_000 == 0 => write!(f, ".{:03}", nanos / 1_000_000),
            nanos if nanos % 1_000 == 0 => write!(f, ".{:06}", nanos / 1_000),
            nanos => write!(f, ".{nanos:09}"),
        }
    }
}

// A fraction of NTP after whole seconds.
#[derive(Clone, Copy)]
struct Fraction(u64);

impl fmt::Display for Fraction {
    ghost output = { λ fraction. Some (fraction_text fraction.0) };

    fn fmt<W: fmt::Write>(&self, f: &mut fmt::Formatter<W>) -> fmt::Result {
        match self.0 {
            0 => Ok(()),
            fraction => write!(f, " + {fraction}/2^32"),
        }
    }
}
