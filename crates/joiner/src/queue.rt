// The queue of feeds whose records wait.
ghost use Rattle.std.specs.Prelude.{◌≡◌, ℕ, ◌+◌, ◌^◌, ◌<◌, ◌≤◌, List, [], ◌∷◌, ◌++◌, length};
ghost use Rattle.std.specs.List.{slice_get};
ghost use Rattle.order.specs.Desk.{rest};
ghost use Rattle.joiner.specs.Ring.{ring_from};

use std::marker::Model;

// At most N feeds, in a ring. It has a fixed place for each, since the joiner allocates nothing: a deque of the library is on the heap.
#[derive(Drop)]
pub(crate) struct Queue<const N: usize> {
    ring: [u8; N],
    oldest: usize,
    len: usize,
}

// Clauses see the feeds, the one that has waited longest first.
impl<const N: usize> Model for Queue<N> {
    ghost Value = { List ℕ };

    ghost view = { λ q. ring_from N q.ring q.oldest q.len };

    ghost invariant = { λ q. (q.oldest < N) × (q.len ≤ N) × (N + N ≤ 2 ^ 64) };
}

impl<const N: usize> Queue<N> {
    pub(crate) fn new() -> Queue<N>
        requires some { 0 < N }
        requires small { N + N ≤ 2 ^ 64 }
        ensures { result ≡ [] }
    {
        Queue {
            ring: [0; N],
            oldest: 0,
            len: 0,
        }
    }

    // The feed that has waited longest.
    pub(crate) fn first(&self) -> Option<u8>
        ensures { result ≡ slice_get self.now 0 }
    {
        if self.len == 0 {
            return None;
        }
        Some(self.ring[self.oldest])
    }

    // One feed more, at the end.
    pub(crate) fn push(&mut self, feed: u8)
        requires { length self.old < N }
        ensures { self.new ≡ self.old ++ feed ∷ [] }
    {
        self.ring[(self.oldest + self.len) % N] = feed;
        self.len += 1;
    }

    // The first leaves.
    pub(crate) fn pop(&mut self)
        ensures { self.new ≡ rest self.old }
    {
        if self.len > 0 {
            self.oldest = (self.oldest + 1) % N;
            self.len -= 1;
        }
    }
}
