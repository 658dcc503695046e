// The feeds' states.
ghost use Rattle.std.specs.Prelude.{◌≡◌, ◌<◌, ◌≤◌, List, length, replicate, filter, Some, MatchOption, slice_set};
ghost use Rattle.std.specs.List.{slice_get};
ghost use Rattle.clocks.specs.Counts.{most_feeds};
ghost use Rattle.order.specs.declared.state.FeedState.{FeedState};
ghost use Rattle.order.specs.declared.state.FeedState.TheVariants.{Idle};
ghost use Rattle.order.specs.Queue.{is_idle, idle_mask};

use arrayvec::ArrayVec;
use clocks::limits::MOST_FEEDS;
use order::state::FeedState;
use std::marker::Model;

// A place for each feed that a joiner can have.
pub(crate) const PLACES: usize = MOST_FEEDS as usize;

// Each feed's state, in memory that is fixed, and a mask that has bit f set exactly where feed f is idle, as was asked for (docs/DECISIONS.md).
#[derive(Drop)]
pub(crate) struct Feeds {
    states: ArrayVec<FeedState, PLACES>,
    idle: u64,
}

// Clauses see the states.
impl Model for Feeds {
    ghost Value = { List FeedState };

    ghost view = { λ f. f.states.items };

    ghost invariant = { λ f. (length f.states.items ≤ most_feeds) × (f.idle ≡ idle_mask f.states.items) };
}

impl Feeds {
    // So many feeds, all idle.
    pub(crate) fn all_idle(count: usize) -> Feeds
        requires { count ≤ most_feeds }
        ensures { result ≡ replicate count Idle }
    {
        let mut states = ArrayVec::from_array_in((), [FeedState::Idle; PLACES]);
        states.truncate(count);
        let idle = if count < PLACES {
            (1 << count) - 1
        } else {
            u64::MAX
        };
        Feeds { states, idle }
    }

    pub(crate) fn len(&self) -> usize
        ensures is { result ≡ length self.now }
        ensures few { result ≤ most_feeds }
    {
        self.states.len()
    }

    // A copy of a feed's state, if there is such a feed.
    pub(crate) fn state(&self, feed: u8) -> Option<FeedState>
        ensures { result ≡ slice_get self.now feed }
    {
        self.states.get(usize::from(feed)).copied()
    }

    // Writes a feed's state back.
    pub(crate) fn store(&mut self, feed: u8, state: FeedState)
        requires { feed < length self.old }
        ensures { self.new ≡ slice_set self.old feed state }
    {
        self.states[usize::from(feed)] = state;
        let bit = 1 << feed;
        self.idle = match state {
            FeedState::Idle => self.idle | bit,
            FeedState::Holding(_) | FeedState::Closing(_) | FeedState::Closed => self.idle & !bit,
        };
    }

    // How many feeds are idle.
    pub(crate) fn idle_count(&self) -> u8
        ensures { result ≡ length (filter is_idle self.now) }
    {
        self.idle.count_ones() as u8
    }

    // One of the idle feeds, if any is.
    pub(crate) fn one_idle(&self) -> Option<u8>
        ensures { MatchOption result (length (filter is_idle self.now) ≡ 0) (λ one. slice_get self.now one ≡ Some Idle) }
    {
        if self.idle == 0 {
            return None;
        }
        Some(self.idle.trailing_zeros() as u8)
    }
}
