// A feed's state, matched together with the call.
ghost use Rattle.std.specs.Prelude.{◌≡◌};
ghost use Rattle.refusals.specs.Said.{told};
ghost use Rattle.joiner.specs.Moves.{changed, change_answer};

use order::state::FeedState;
use refusals::refusal::Refusal;

// A call as one feed sees it. An enum and no closures: state and call are matched together, as was asked for (docs/DECISIONS.md).
#[derive(Clone, Copy)]
pub(crate) enum Move {
    // a record of this tick, or why its stamp has none
    Put(Result<u64, Refusal>),
    Close,
    Take,
}

// Changes a feed's state in place, or refuses and leaves it. A feed that has no record is left by a take.
pub(crate) fn change(state: &mut FeedState, by: Move) -> Result<(), Refusal>
    ensures after { state.new ≡ changed state.old by }
    ensures answer { told result ≡ change_answer state.old by }
{
    match (&mut *state, by) {
        (FeedState::Idle, Move::Put(reading)) => *state = FeedState::Holding(reading?),
        (FeedState::Holding(_), Move::Put(_)) => return Err(Refusal::FeedHolding),
        (FeedState::Idle, Move::Close) => *state = FeedState::Closed,
        (FeedState::Holding(tick), Move::Close) => *state = FeedState::Closing(*tick),
        (FeedState::Closing(_) | FeedState::Closed, Move::Put(_) | Move::Close) => return Err(
            Refusal::FeedClosed,
        ),
        (FeedState::Holding(_), Move::Take) => *state = FeedState::Idle,
        (FeedState::Closing(_), Move::Take) => *state = FeedState::Closed,
        (FeedState::Idle | FeedState::Closed, Move::Take) => {}
    }
    Ok(())
}
