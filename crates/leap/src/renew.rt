// Bulletins carry a table on.
ghost use Rattle.std.specs.Prelude.{◌≡◌, ◌≤◌, Ok, Err, MatchResult, OnErr, OnOk};
ghost use Rattle.refusals.specs.Said.{said, told};
ghost use Rattle.leap.specs.Table.{Sound, top_offset, table_end};
ghost use Rattle.leap.specs.Bulletin.{last_offset, next_offset, judged_change, judged, new_entry, renewed, table_after, extended, appended, Appendable, Renews, KeepsPast};

use crate::bulletin::{Bulletin, Change};
use crate::entry::Entry;
use crate::limits::{MOST_ENTRIES, TABLE_END, TOP_OFFSET};
use crate::table::LeapTable;
use calendar::date::is_month_first;
use refusals::refusal::Refusal;

impl LeapTable {
    fn last_offset(&self) -> u16
        ensures is { result ≡ last_offset self.now }
        ensures range { result ≤ top_offset }
        ensures sound { Sound self.now }
    {
        self.entries[self.count - 1].offset
    }

    fn with_expiry(&self, expiry: u32) -> LeapTable
        requires grows { self.now.expiry ≤ expiry }
        requires ends { expiry ≤ table_end }
        ensures { result ≡ extended self.now expiry }
    {
        LeapTable {
            entries: self.entries,
            count: self.count,
            expiry,
        }
    }

    fn with_entry(&self, entry: Entry, expiry: u32) -> LeapTable
        requires { Appendable self.now entry expiry }
        ensures { result ≡ appended self.now entry expiry }
    {
        let mut entries = self.entries;
        entries[self.count] = entry;
        LeapTable {
            entries,
            count: self.count + 1,
            expiry,
        }
    }

    // The table with the bulletin's second inserted or deleted. After it the offset is `offset`, none where that would leave its range.
    fn changed(&self, bulletin: Bulletin, offset: Option<u16>) -> Result<LeapTable, Refusal>
        requires next { offset ≡ next_offset bulletin.change (last_offset self.now) }
        requires expires { bulletin.expiry ≤ table_end }
        ensures { MatchResult result (λ u. (judged_change self.now bulletin ≡ Ok tt) × (u ≡ appended self.now (new_entry self.now bulletin) bulletin.expiry)) (λ e. judged_change self.now bulletin ≡ Err (said e)) }
    {
        if bulletin.day <= self.expiry
            || bulletin.day >= bulletin.expiry
            || !is_month_first(bulletin.day)
        {
            return Err(Refusal::BadDay);
        }
        if self.count == MOST_ENTRIES {
            return Err(Refusal::TableLimit);
        }
        let entry = Entry {
            day: bulletin.day,
            offset: offset.ok_or(Refusal::TableLimit)?,
        };
        Ok(self.with_entry(entry, bulletin.expiry))
    }

    // The table that the bulletin makes of this one. The first check that fails gives the refusal.
    fn renewed(&self, bulletin: Bulletin) -> Result<LeapTable, Refusal>
        ensures sound { Sound self.now }
        ensures answer { MatchResult result (λ u. (judged self.now bulletin ≡ Ok tt) × (u ≡ renewed self.now bulletin)) (λ e. judged self.now bulletin ≡ Err (said e)) }
    {
        // Read first: it says that the table is sound, also where the bulletin is refused.
        let last = self.last_offset();
        let change = Change::try_from(bulletin.change).map_err(|_| Refusal::BadChange)?;
        if change == Change::Unchanged && bulletin.day != 0 {
            return Err(Refusal::BadChange);
        }
        if bulletin.expiry < self.expiry || bulletin.expiry > TABLE_END {
            return Err(Refusal::BadExpiry);
        }
        match change {
            Change::Unchanged => Ok(self.with_expiry(bulletin.expiry)),
            Change::Inserted => self.changed(bulletin, (last < TOP_OFFSET).then_some(last + 1)),
            Change::Deleted => self.changed(bulletin, last.checked_sub(1)),
        }
    }

    /// Takes a bulletin in, or refuses it and alters nothing.
    pub fn renew(&mut self, bulletin: Bulletin) -> Result<(), Refusal>
        ensures answer { told result ≡ judged self.old bulletin }
        ensures after { self.new ≡ table_after self.old bulletin }
        ensures unaltered { OnErr result (self.new ≡ self.old) }
        ensures past { OnOk result (KeepsPast self.old self.new × Renews self.old self.new) }
        ensures sound { Sound self.new }
    {
        let table = self.renewed(bulletin)?;
        *self = table;
        Ok(())
    }
}
