// The lengths of UTC's rungs: days in ticks, and the windows of smeared time.
use clocks::limits::SECOND;
use leap::limits::{DAY_SECONDS, LARGEST_STEP};

/// A day with no change.
pub const DAY: u64 = DAY_SECONDS as u64 * SECOND;

/// How far neighbouring days may differ.
pub const STEP: u64 = LARGEST_STEP as u64 * SECOND;

/// The smeared length of a window, in seconds.
pub const WINDOW_SECONDS: u64 = 86_400;

/// How long before the midnight of a step its window opens, in seconds.
pub const WINDOW_LEAD: u64 = 43_200;
