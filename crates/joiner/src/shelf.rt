// The caller's row of slots, one for each feed, with bodies of any type that can be copied.
ghost use Rattle.std.specs.Prelude.{◌≡◌, length};

/// The slots that the caller lends, one for each feed.
// `lent` stands in the contract of each call that is lent a shelf: it is one equation, and a name for it would be no shorter.
#[derive(Drop)]
pub struct Shelf<'a, T> {
    pub(crate) slots: &'a mut [T],
}

impl<'a, T> Shelf<'a, T> {
    /// The shelf of these slots.
    pub fn new(slots: &'a mut [T]) -> Shelf<'a, T>
        ensures { result.slots.now ≡ slots.old }
    {
        Shelf { slots }
    }

    /// The number of slots.
    pub fn len(&self) -> usize
        ensures { result ≡ length self.now.slots.now }
    {
        self.slots.len()
    }
}
