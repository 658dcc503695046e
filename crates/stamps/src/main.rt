// stamps: prints stamps of three forms as they are read and shown, and what a pile of three rungs answers.
#![tactic(auto)]

use banks::scale::Scale;
use clocks::form::Form;
use clocks::rung::Rung;
use forms::gps::Gps;
use forms::ntp::Ntp;
use forms::posix::Posix;
use leap::table::LeapTable;
use refusals::fault::Fault;
use rungs::coarse::Coarse;
use rungs::offset::Offset;
use rungs::pile::Pile;
use rungs::tai::Tai;
use std::fmt;

// GPS time is 19 seconds behind TAI, and its first week began 3,657 days after 1970-01-01.
const GPS_BEHIND: u64 = 315_964_819_000_000_000;

// 2000-01-01 in seconds since 1900-01-01.
const NTP_PIVOT: u64 = 3_155_673_600;

const GPS_PIVOT: u64 = 1_800;

// UTC was 37 seconds behind TAI from 2017-01-01 on.
const UTC_BEHIND: u64 = 37_000_000_000;

fn main(rt: HostRuntime) -> anyhow::Result<()> {
    let page = Page {
        rt: &rt,
        table: LeapTable::starting(),
    };
    page.print_forms()?;
    println!(rt)?;
    page.print_pile()
}

// Where the stamps are printed, and the table that they are read and shown with.
#[derive(Drop)]
struct Page<'a> {
    rt: &'a HostRuntime,
    table: LeapTable,
}

impl Page<'_> {
    fn print_forms(&self) -> anyhow::Result<()> {
        let posix = Scale {
            form: Posix,
            rung: Tai,
        };
        let ntp = Scale {
            form: Ntp::new(NTP_PIVOT),
            rung: Tai,
        };
        let gps = Scale {
            form: Gps::new(GPS_PIVOT),
            rung: Pile {
                upper: Offset::new(GPS_BEHIND),
                lower: Tai,
            },
        };
        println!(self.rt;
            "form           hi          lo           is read as  shown as hi          lo"
        )?;
        self.print_stamp("POSIX", &posix, (1_483_228_837, 5))?;
        self.print_stamp("NTP", &ntp, (3_692_217_600, 2_147_483_648))?;
        self.print_stamp("GPS", &gps, (906, 18_000))
    }

    // A stamp, the count that it is read as, and the stamp that this count is shown as.
    fn print_stamp<F: Form, R: Rung>(
        &self,
        name: &str,
        scale: &Scale<F, R>,
        stamp: (u64, u64),
    ) -> anyhow::Result<()> {
        let (hi, lo) = stamp;
        print!(self.rt; "{name:<5} {hi:>11} {lo:>11}  ")?;
        let tick = match scale.read_stamp(&self.table, stamp) {
            Ok(tick) => tick,
            Err(fault) => return self.print_fault(fault),
        };
        print!(self.rt; "{tick:>19}  ")?;
        let (hi, lo) = match scale.show_tick(&self.table, tick) {
            Ok(shown) => shown,
            Err(fault) => return self.print_fault(fault),
        };
        println!(self.rt; "{hi:>11} {lo:>11}")?;
        Ok(())
    }

    fn print_pile(&self) -> anyhow::Result<()> {
        let pile = Pile {
            upper: Coarse::new(1_000),
            lower: Pile {
                upper: Offset::new(UTC_BEHIND),
                lower: Tai,
            },
        };
        let rungs = pile.rungs();
        let loss = pile.loss();
        println!(self.rt;
            "A pile of {rungs} rungs with loss {loss}: steps of 1,000 over an offset of 37 seconds over TAI"
        )?;
        for count in [
            1_483_228_800_000_000_000,
            1_483_228_800_000_000_001,
            7_999_999_970_000_000_000,
        ] {
            let answer = Answer(pile.read(&self.table, count));
            println!(self.rt; "reads {count:>19}: {answer}")?;
        }
        for count in [
            1_483_228_837_000_000_999,
            36_999_999_999,
            8_000_000_000_000_000_000,
        ] {
            let answer = Answer(pile.show(&self.table, count));
            println!(self.rt; "shows {count:>19}: {answer}")?;
        }
        Ok(())
    }

    fn print_fault(&self, fault: Fault) -> anyhow::Result<()> {
        println!(self.rt; "refused {fault}")?;
        Ok(())
    }
}

// What a rung answers, in words.
#[derive(Drop)]
struct Answer(Result<u64, Fault>);

impl fmt::Display for Answer {
    fn fmt<W: fmt::Write>(&self, f: &mut fmt::Formatter<W>) -> fmt::Result {
        match self.0 {
            Ok(count) => write!(f, "{count}"),
            Err(fault) => write!(f, "refused {fault}"),
        }
    }
}
