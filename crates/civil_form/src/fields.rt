// The fields of a stamp.
ghost use Rattle.std.specs.Prelude.{◌≡◌, ◌+◌, ◌*◌, ◌^◌, ◌<◌};
ghost use Rattle.clocks.specs.Rungs.{own_fault};
ghost use Rattle.civil.specs.Civil.{joined, first, middle, last};

use clocks::fault::own_fault;
use refusals::fault::{Cause, Fault, Way};

// Three fields that are joined in one number, the last two with two digits each, as in yyyymmdd and hhmmss.
pub(crate) fn apart(number: u64) -> (u64, u64, u64)
    ensures first { result.0 ≡ first number }
    ensures middle { result.1 ≡ middle number }
    ensures last { result.2 ≡ last number }
{
    (number / 10_000, number / 100 % 100, number % 100)
}

pub(crate) fn join(first: u64, middle: u64, last: u64) -> u64
    requires { joined first middle last < 2 ^ 64 }
    ensures { result ≡ joined first middle last }
{
    (first * 100 + middle) * 100 + last
}

// A form that reads was handed no count.
pub(crate) fn wrong_field() -> Fault
    ensures { result ≡ own_fault Cause.Field Way.Reading 0 }
{
    own_fault(Cause::Field, Way::Reading, 0)
}
