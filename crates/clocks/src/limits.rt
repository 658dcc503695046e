// Numbers that all clocks share.

/// What is not below is no count.
pub const COUNT_END: u64 = 8_000_000_000_000_000_000;

/// A loss and a spread are told up to here.
pub const TOLD_LIMIT: u64 = 1_000_000_000_000;

/// A bank has at most so many feeds of use.
pub const MOST_FEEDS: u8 = 64;

/// A second in ticks.
pub const SECOND: u64 = 1_000_000_000;
