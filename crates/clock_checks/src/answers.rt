// Clocks held against tables of what they must answer.
use banks::scale::Scale;
use clocks::form::Form;
use clocks::rung::Rung;
use leap::table::LeapTable;
use refusals::fault::{Cause, Fault, Way};
use std::fmt::Debug;
use std::process::Abort;

pub(crate) const LAST_COUNT: u64 = 7_999_999_999_999_999_999;

pub(crate) const NO_COUNT: u64 = 8_000_000_000_000_000_000;

pub(crate) fn read_fault(cause: Cause, rung: u8, count: u64) -> Fault {
    Fault {
        cause,
        rung,
        way: Way::Reading,
        count,
    }
}

pub(crate) fn show_fault(cause: Cause, rung: u8, count: u64) -> Fault {
    Fault {
        cause,
        rung,
        way: Way::Showing,
        count,
    }
}

fn answers<Q: Copy, A: PartialEq + Debug + Drop, F: Fn(Q) -> A>(
    rt: &impl Abort,
    ask: F,
    known: &[(Q, A)],
)
    requires { F.IsAlwaysCallable ask }
{
    for (question, answer) in known {
        assert_eq!(rt; ask(*question), *answer);
    }
}

pub(crate) fn rung_answers<R: Rung>(
    rt: &impl Abort,
    rung: &R,
    reads: &[(u64, Result<u64, Fault>)],
    shows: &[(u64, Result<u64, Fault>)],
) {
    let table = LeapTable::starting();
    answers(rt, |count| rung.read(&table, count), reads);
    answers(rt, |count| rung.show(&table, count), shows);
}

pub(crate) fn form_answers<F: Form>(
    rt: &impl Abort,
    form: &F,
    reads: &[((u64, u64), Result<u64, Fault>)],
    shows: &[(u64, Result<(u64, u64), Fault>)],
) {
    let table = LeapTable::starting();
    answers(rt, |stamp| form.read(&table, stamp), reads);
    answers(rt, |count| form.show(&table, count), shows);
}

// Stamps that are read and shown alike.
pub(crate) fn form_ties<F: Form>(rt: &impl Abort, form: &F, known: &[((u64, u64), u64)]) {
    let table = LeapTable::starting();
    for (stamp, count) in known {
        assert_eq!(rt; form.read(&table, *stamp), Ok(*count));
        assert_eq!(rt; form.show(&table, *count), Ok(*stamp));
    }
}

pub(crate) fn scale_answers<F: Form, R: Rung>(
    rt: &impl Abort,
    scale: &Scale<F, R>,
    reads: &[((u64, u64), Result<u64, Fault>)],
    shows: &[(u64, Result<(u64, u64), Fault>)],
) {
    let table = LeapTable::starting();
    answers(rt, |stamp| scale.read_stamp(&table, stamp), reads);
    answers(rt, |tick| scale.show_tick(&table, tick), shows);
}
