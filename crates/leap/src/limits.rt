// The limits of a leap table.
use crate::entry::Entry;

// How many entries a table has room for.
pub(crate) const MOST_ENTRIES: usize = 64;

// The latest day that a table can expire on: the day after 2199-12-31.
pub(crate) const TABLE_END: u32 = 84_006;

pub(crate) const TOP_OFFSET: u16 = 99;

/// How far neighbouring offsets may lie apart.
pub const LARGEST_STEP: u16 = 1;

/// Every table begins with 1972-01-01, when TAI minus UTC was ten seconds.
pub const FIRST_ENTRY: Entry = Entry {
    day: 730,
    offset: 10,
};

pub const DAY_SECONDS: u32 = 86_400;
