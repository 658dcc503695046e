// One line is answered.
ghost use Rattle.std.specs.Prelude.{◌≡◌, List};
ghost use Rattle.calls.specs.declared.event.LicenceEvent.{LicenceEvent as Body};
ghost use Rattle.order.specs.Desk.{Event};
ghost use Rattle.joiner.specs.Joiner.{desk_of};
ghost use Rattle.session.specs.Session.{Answers};

use calls::event::LicenceEvent;
use clocks::bank::Bank;
use frames::decode::decode;
use joiner::joiner::Joiner;
use joiner::shelf::Shelf;
use wire::answer::Answer;

/// What a joiner on its shelf answers to a line of text.
pub fn answer_line<B: Bank>(
    joiner: &mut Joiner<B>,
    shelf: &mut Shelf<'_, LicenceEvent>,
    line: &[u8],
) -> Answer
    ensures answers { (vs : List (Event Body)) × Answers (B.Bank.meaning joiner.old.bank) (desk_of joiner.old shelf.old.slots.now) line.now result vs (desk_of joiner.new shelf.new.slots.now) }
    ensures kept { joiner.new.bank ≡ joiner.old.bank }
    ensures lent { shelf.new.slots.ghost_name ≡ shelf.old.slots.ghost_name }
{
    let call = decode(line)?;
    Ok(joiner.call(shelf, call))
}
