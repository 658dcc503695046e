// What a table says of a day.
ghost use Rattle.std.specs.Prelude.{◌≡◌, ◌+◌, ◌≤◌};
ghost use Rattle.leap.specs.Table.{Sound, Counts, off, len, largest_step, top_offset, day_seconds};

use crate::limits::{DAY_SECONDS, FIRST_ENTRY};
use crate::table::LeapTable;

impl LeapTable {
    /// TAI minus UTC on a day, in seconds.
    pub fn offset_on(&self, day: u32) -> u16
        ensures is { result ≡ off self.now day }
        ensures counts { Counts self.now day result }
        ensures range { result ≤ top_offset }
        ensures sound { Sound self.now }
    {
        // Days that are asked for are mostly late, so the newest entry is tried first.
        // Each entry is copied before its day is compared, so that it is loaded once.
        let newest = self
            .in_use()
            .iter()
            .rev()
            .copied()
            .find(|entry| entry.day <= day);
        newest.map_or(FIRST_ENTRY.offset, |entry| entry.offset)
    }

    /// The seconds of a day.
    pub fn day_length(&self, day: u32) -> u32
        ensures is { result ≡ len self.now day }
        ensures most { result ≤ day_seconds + largest_step }
        ensures least { day_seconds ≤ result + largest_step }
        ensures sound { Sound self.now }
    {
        // The last day of all has no next one in 32 bits, but by then the offset no longer changes.
        let next = self.offset_on(day.saturating_add(1)) as u32;
        DAY_SECONDS + next - self.offset_on(day) as u32
    }
}
