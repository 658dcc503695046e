// The table that stands before any bulletin.
ghost use Rattle.std.specs.Prelude.{◌≡◌};
ghost use Rattle.leap.specs.Table.{Sound};
ghost use Rattle.leap.specs.Starting.{starting};

use crate::entry::Entry;
use crate::table::LeapTable;

const STARTING_COUNT: usize = 28;

const STARTING_EXPIRY: u32 = 20_000;

// The days and offsets since 1972-01-01. Pairs, as entries written out would take four lines each.
const STARTING: [(u32, u16); STARTING_COUNT] = [
    (730, 10),
    (912, 11),
    (1096, 12),
    (1461, 13),
    (1826, 14),
    (2191, 15),
    (2557, 16),
    (2922, 17),
    (3287, 18),
    (3652, 19),
    (4199, 20),
    (4564, 21),
    (4929, 22),
    (5660, 23),
    (6574, 24),
    (7305, 25),
    (7670, 26),
    (8217, 27),
    (8582, 28),
    (8947, 29),
    (9496, 30),
    (10043, 31),
    (10592, 32),
    (13149, 33),
    (14245, 34),
    (15522, 35),
    (16617, 36),
    (17167, 37),
];

impl LeapTable {
    /// The table that stands before any bulletin. It expires on 2024-10-04.
    pub fn starting() -> LeapTable
        ensures is { result ≡ starting }
        ensures sound { Sound result }
    {
        let entries = STARTING.map(|(day, offset)| Entry { day, offset });
        LeapTable::holding(&entries, STARTING_EXPIRY)
    }
}
