// The standard bank: six feeds, each with TAI at the bottom.
ghost use Rattle.std.specs.Prelude.{◌≡◌};
ghost use Rattle.clocks.specs.Banks.{one_scale, bank_reads, bank_shows};
ghost use Rattle.standard.specs.Standard.{smeared_stamps, ntp_stamps, gps_stamps, standard};
ghost use Rattle.standard.specs.Worked.{WorkedCases};

use banks::beside::Beside;
use banks::scale::Scale;
use civil_form::form::Civil;
use clocks::bank::Bank;
use clocks::form::Form;
use clocks::limits::SECOND;
use clocks::rung::Rung;
use forms::gps::Gps;
use forms::ntp::Ntp;
use forms::posix::Posix;
use leap::table::LeapTable;
use refusals::refusal::Refusal;
use rungs::coarse::Coarse;
use rungs::offset::Offset;
use rungs::pile::Pile;
use rungs::tai::Tai;
use utc_rungs::fold_rung::Fold;
use utc_rungs::leap_rung::Leap;
use utc_rungs::smear_rung::Smear;

/// A smeared clock goes in steps of a microsecond.
const SMEARED_STEP: u64 = 1_000;

/// NTP stamps are of the era that begins with 2000-01-01.
const NTP_PIVOT: u64 = 3_155_673_600;

/// GPS weeks are of the turn that begins with this one, in July 2014.
const GPS_PIVOT: u64 = 1_800;

/// The tick at which GPS time begins: 1980-01-06, when TAI minus UTC was 19 seconds.
const GPS_BEGINS: u64 = 315_964_819 * SECOND;

/// UTC's labels.
type UtcLabels = Pile<Leap, Tai>;

/// POSIX counts of UTC.
type PosixUtc = Pile<Fold, UtcLabels>;

/// Smeared counts in steps.
type Smeared = Pile<Coarse, Pile<Smear, Tai>>;

type TaiStamps = Scale<Posix, Tai>;

type CivilStamps = Scale<Civil, UtcLabels>;

type PosixStamps = Scale<Posix, PosixUtc>;

type SmearedStamps = Scale<Posix, Smeared>;

type NtpStamps = Scale<Ntp, PosixUtc>;

type GpsStamps = Scale<Gps, Pile<Offset, Tai>>;

/// The feeds 0 to 5, in this order.
pub type StandardBank = Beside<
    TaiStamps,
    Beside<CivilStamps, Beside<PosixStamps, Beside<SmearedStamps, Beside<NtpStamps, GpsStamps>>>>,
>;

const UTC_LABELS: UtcLabels = Pile {
    upper: Leap,
    lower: Tai,
};

const POSIX_UTC: PosixUtc = Pile {
    upper: Fold,
    lower: UTC_LABELS,
};

const TAI_STAMPS: TaiStamps = Scale {
    form: Posix,
    rung: Tai,
};

const CIVIL_STAMPS: CivilStamps = Scale {
    form: Civil,
    rung: UTC_LABELS,
};

const POSIX_STAMPS: PosixStamps = Scale {
    form: Posix,
    rung: POSIX_UTC,
};

fn smeared_stamps() -> SmearedStamps
    ensures { ⟦<SmearedStamps as Bank>⟧.meaning result ≡ one_scale smeared_stamps }
{
    Scale {
        form: Posix,
        rung: Pile {
            upper: Coarse::new(SMEARED_STEP),
            lower: Pile {
                upper: Smear,
                lower: Tai,
            },
        },
    }
}

fn ntp_stamps() -> NtpStamps
    ensures { ⟦<NtpStamps as Bank>⟧.meaning result ≡ one_scale ntp_stamps }
{
    Scale {
        form: Ntp::new(NTP_PIVOT),
        rung: POSIX_UTC,
    }
}

fn gps_stamps() -> GpsStamps
    ensures { ⟦<GpsStamps as Bank>⟧.meaning result ≡ one_scale gps_stamps }
{
    Scale {
        form: Gps::new(GPS_PIVOT),
        rung: Pile {
            upper: Offset::new(GPS_BEGINS),
            lower: Tai,
        },
    }
}

/// The standard bank.
/// A function and no constant, since three of its clocks are made by functions.
#[tactic(auto, using(crate::proofs::Worked::worked))]
pub fn standard_bank() -> StandardBank
    ensures means { ⟦<StandardBank as Bank>⟧.meaning result ≡ standard }
    ensures worked { WorkedCases }
{
    Beside {
        left: TAI_STAMPS,
        right: Beside {
            left: CIVIL_STAMPS,
            right: Beside {
                left: POSIX_STAMPS,
                right: Beside {
                    left: smeared_stamps(),
                    right: Beside {
                        left: ntp_stamps(),
                        right: gps_stamps(),
                    },
                },
            },
        },
    }
}

/// The tick of a stamp (hi, lo) of a standard feed.
pub fn read_standard(table: &LeapTable, feed: u8, stamp: (u64, u64)) -> Result<u64, Refusal>
    ensures { result ≡ bank_reads standard table.now feed stamp }
{
    standard_bank().read(table, feed, stamp)
}

/// The stamp that a tick shows on a standard feed.
pub fn show_standard(table: &LeapTable, feed: u8, tick: u64) -> Result<(u64, u64), Refusal>
    ensures { result ≡ bank_shows standard table.now feed tick }
{
    standard_bank().show(table, feed, tick)
}
