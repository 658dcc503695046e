// The page that is printed.
use crate::bad_line::BadLine;
use crate::line::stamp_of;
use leap::table::LeapTable;
use readable::clock::Clock;
use readable::stamp::Stamp;
use refusals::refusal::Refusal;
use std::fmt;

// Where the answers are printed, and the table that stamps are read and shown with.
#[derive(Drop)]
pub(crate) struct Page<'a> {
    pub(crate) rt: &'a HostRuntime,
    pub(crate) table: LeapTable,
}

impl Page<'_> {
    // A line of the input: it is told again with its number, and answered below.
    pub(crate) fn answer(&self, number: usize, bytes: &[u8]) -> anyhow::Result<()> {
        let rt = self.rt;
        let Ok(text) = str::from_utf8(bytes) else {
            println!(rt; "line {number}\n  {}", BadLine::NotText)?;
            return Ok(());
        };
        let text = text.trim();
        if text.is_empty() || text.starts_with('#') {
            return Ok(());
        }
        println!(rt; "line {number}: {text}")?;
        match stamp_of(text) {
            Ok(stamp) => self.convert(stamp),
            Err(bad) => self.say(bad),
        }
    }

    // What each clock shows at the tick of a stamp.
    fn convert(&self, stamp: Stamp) -> anyhow::Result<()> {
        let tick = match stamp.read(&self.table) {
            Ok(tick) => tick,
            Err(refusal) => return self.say(Refused(refusal)),
        };
        let rt = self.rt;
        println!(rt; "  tick   {tick}")?;
        for clock in Clock::ALL {
            print!(rt; "  {clock:<5}")?;
            match Stamp::of(clock, &self.table, tick) {
                Ok(shown) => self.say(shown)?,
                Err(refusal) => self.say(Refused(refusal))?,
            }
        }
        Ok(())
    }

    // Ends a line with what there is to say.
    fn say(&self, said: impl fmt::Display + Drop) -> anyhow::Result<()> {
        let rt = self.rt;
        println!(rt; "  {said}")?;
        Ok(())
    }
}

// A refusal with its number, in words.
#[derive(Drop)]
struct Refused(Refusal);

impl fmt::Display for Refused {
    fn fmt<W: fmt::Write>(&self, f: &mut fmt::Formatter<W>) -> fmt::Result {
        match self.0 {
            Refusal::Clock(fault) => write!(f, "refused {fault}"),
            refusal => write!(f, "refused {}: {refusal}", refusal.number()),
        }
    }
}
