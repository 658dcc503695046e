// The leap table.
use crate::entry::Entry;
use crate::limits::MOST_ENTRIES;
use std::marker::Model;

/// A leap table that keeps its properties at every moment: no other can be made.
// An array and a count: tables are held in fixed memory, and are `Copy`, which std's and the kit's vectors are not.
#[derive(Clone, Copy)]
pub struct LeapTable {
    // the first `count` are in use, and those after them are blank
    pub(crate) entries: [Entry; MOST_ENTRIES],
    pub(crate) count: usize,
    // the table is valid for the days before this one
    pub(crate) expiry: u32,
}

// Contracts see a table as its entries in use and its expiry. That it is sound they say by `sound`, since callers see no invariant.
impl Model for LeapTable {
    ghost use Rattle.leap.specs.Table.{Table};

    ghost Value = { Table };

    ghost use Rattle.leap.specs.Held.{shown, Held, fields_of};
    ghost use Rattle.std.proofs.Common.{arith, length-take-le};

    ghost view = { shown };

    ghost invariant = { Held };

    ghost inverse = { fields_of };

    ghost inverse_ok = { λ t h i. record {
      entries = h.filled i;
      count = length-take-le t.count t.entries (omega (arith, h.high, h.sized)) i;
      expiry = t.expiry;
    } };
}
