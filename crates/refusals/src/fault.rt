// Faults: why a clock has no answer to a stamp or a tick.

/// What a clock found wrong.
#[derive(Clone, Copy, PartialEq, Eq, Debug)]
pub enum Cause {
    /// 7: a field of the stamp is wrong
    Field,
    /// 8: outside the window of a pivot, or the years of the calendar
    Window,
    /// 9: not a count, that is not below 8 * 10^18
    NoCount,
    /// 10: before the first entry of the leap table
    BeforeTable,
    /// 11: at or after the expiry of the leap table
    Expired,
    /// 12: a second that its day does not have
    NoSuchSecond,
    /// 13: an inserted second, which POSIX has no number for
    InsertedSecond,
    /// 14: not a multiple of the clock's step
    NotMultiple,
}

/// Which way a clock was asked.
#[derive(Clone, Copy, PartialEq, Eq, Debug)]
pub enum Way {
    /// a stamp or own count was to be read as a count below
    Reading,
    /// a count below was to be shown as an own count or a stamp
    Showing,
}

/// One clock's refusal to read or to show.
#[derive(Clone, Copy, PartialEq, Eq, Debug)]
pub struct Fault {
    pub cause: Cause,
    /// the place of the clock that refused, counted from the top: a form is 0, the next below is 1; cut to 255
    pub rung: u8,
    pub way: Way,
    /// the count that the clock was handed; 0 where a form reads
    pub count: u64,
}
