// What becomes of a feed.
ghost use Rattle.std.specs.Prelude.{◌≡◌, cond, Some, None};
ghost use Rattle.order.specs.declared.state.FeedState.TheVariants.{Idle};
ghost use Rattle.order.specs.Desk.{held};
ghost use Rattle.order.specs.Queue.{has_record};

/// The state of a feed. (`Default` is what a vector of fixed capacity asks of its items.)
#[derive(Clone, Copy, PartialEq, Eq, Debug)]
pub enum FeedState {
    /// it has no record waiting, and may be put to
    Idle,
    /// its record of this tick waits
    Holding(u64),
    /// its last record, of this tick, waits
    Closing(u64),
    /// it has ended
    Closed,
}

impl Default for FeedState {
    ghost is_default = { λ s. s ≡ Idle };

    fn default() -> Self {
        Self::Idle
    }
}

impl FeedState {
    /// The tick of the record that waits in a feed, if one does.
    pub fn waiting_tick(self) -> Option<u64>
        ensures { result ≡ cond (has_record self) (Some (held self)) None }
    {
        match self {
            FeedState::Holding(tick) | FeedState::Closing(tick) => Some(tick),
            FeedState::Idle | FeedState::Closed => None,
        }
    }
}
