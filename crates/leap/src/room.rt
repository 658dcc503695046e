// The room of a table: the entries in use, and blank ones after them.
ghost use Rattle.std.specs.Prelude.{◌≡◌, ◌≤◌, length};
ghost use Rattle.leap.specs.Table.{Sound, most_entries};
ghost use Rattle.leap.specs.Room.{padded};
ghost use Rattle.leap.specs.Parts.{table_from};

use crate::entry::Entry;
use crate::limits::MOST_ENTRIES;
use crate::table::LeapTable;

// What fills the room past the entries in use.
const BLANK: Entry = Entry { day: 0, offset: 0 };

// These entries, and blank ones after them.
fn padded(entries: &[Entry]) -> [Entry; MOST_ENTRIES]
    requires { length entries.now ≤ most_entries }
    ensures { result ≡ padded entries.now }
{
    let mut room = [BLANK; MOST_ENTRIES];
    room[..entries.len()].copy_from_slice(entries);
    room
}

impl LeapTable {
    // The table of entries that are known to be a table's.
    pub(crate) fn holding(entries: &[Entry], expiry: u32) -> LeapTable
        requires { Sound (table_from entries.now expiry) }
        ensures { result ≡ table_from entries.now expiry }
    {
        LeapTable {
            entries: padded(entries),
            count: entries.len(),
            expiry,
        }
    }

    // The entries in use.
    pub(crate) fn in_use(&self) -> &[Entry]
        ensures is { result.now ≡ self.now.entries }
        ensures sound { Sound self.now }
    {
        &self.entries[..self.count]
    }
}
