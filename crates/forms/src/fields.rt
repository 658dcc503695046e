// The fields of a stamp.
ghost use Rattle.std.specs.Prelude.{◌≡◌, ◌||◌, nat_le};
ghost use Rattle.clocks.specs.Rungs.{refused_if};

use clocks::fault::own_fault;
use refusals::fault::{Cause, Fault, Way};

// The stamp (hi, lo), if each field is below its limit. A form that reads was handed no count, and its faults tell 0 for it: each fault is written with eight bytes of count.
pub(crate) fn checked(stamp: (u64, u64), limits: (u64, u64)) -> Result<(u64, u64), Fault>
    ensures { result ≡ refused_if (nat_le limits.0 stamp.0 || nat_le limits.1 stamp.1) Cause.Field Way.Reading 0 (Ok stamp) }
{
    if stamp.0 >= limits.0 || stamp.1 >= limits.1 {
        return Err(own_fault(Cause::Field, Way::Reading, 0));
    }
    Ok(stamp)
}
