// Tables from their parts, and the parts of a table.
ghost use Rattle.std.specs.Prelude.{◌≡◌, ◌↔◌, length, IsTrue, MatchOption};
ghost use Rattle.std.specs.List.{slice_get};
ghost use Rattle.leap.specs.Table.{Sound};
ghost use Rattle.leap.specs.Test.{next_to, in_order};
ghost use Rattle.leap.specs.Parts.{table_from};

use crate::entry::Entry;
use crate::limits::{FIRST_ENTRY, LARGEST_STEP, MOST_ENTRIES, TABLE_END, TOP_OFFSET};
use crate::table::LeapTable;
use calendar::date::is_month_first;

// Whether an entry may stand right after another.
fn follows(later: &Entry, earlier: &Entry) -> bool
    ensures { result ≡ next_to earlier.now later.now }
{
    let step = earlier.offset.abs_diff(later.offset);
    earlier.day < later.day
        && (1..=LARGEST_STEP).contains(&step)
        && later.offset <= TOP_OFFSET
        && is_month_first(later.day)
}

// Whether each entry may stand right before the later one beside it.
fn are_in_order(entries: &[Entry], later: &[Entry]) -> bool
    ensures { result ≡ in_order entries.now later.now }
{
    entries
        .iter()
        .zip(later)
        .all(|(entry, next)| follows(next, entry))
}

// Whether these are the parts of a table.
fn are_sound(entries: &[Entry], expiry: u32) -> bool
    ensures { IsTrue result ↔ Sound (table_from entries.now expiry) }
{
    let [first, rest @ ..] = entries else {
        return false;
    };
    if *first != FIRST_ENTRY || entries.len() > MOST_ENTRIES || expiry > TABLE_END {
        return false;
    }
    // The last entry by its place, as there is one: `last` would need an answer for where there is none.
    are_in_order(entries, rest) && entries[entries.len() - 1].day < expiry
}

impl LeapTable {
    /// The table of these entries, which expires on this day. There is none where a property of tables is missing.
    pub fn from_parts(entries: &[Entry], expiry: u32) -> Option<LeapTable>
        ensures { MatchOption result (Sound (table_from entries.now expiry) → ⊥) (λ t. Sound (table_from entries.now expiry) × (t ≡ table_from entries.now expiry)) }
    {
        if !are_sound(entries, expiry) {
            return None;
        }
        Some(LeapTable::holding(entries, expiry))
    }

    /// The day on which the table expires: it is valid for the days before.
    pub fn expiry(&self) -> u32
        ensures is { result ≡ self.now.expiry }
        ensures sound { Sound self.now }
    {
        self.expiry
    }

    /// How many entries there are.
    pub fn entry_count(&self) -> usize
        ensures is { result ≡ length self.now.entries }
        ensures sound { Sound self.now }
    {
        self.in_use().len()
    }

    /// The entry at a place, counted from 0; none past the last.
    pub fn entry(&self, place: usize) -> Option<Entry>
        ensures is { result ≡ slice_get self.now.entries place }
        ensures sound { Sound self.now }
    {
        self.in_use().get(place).copied()
    }
}
