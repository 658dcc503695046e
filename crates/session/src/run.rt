// Frames in, answers out.
ghost use Rattle.std.specs.Prelude.{IfOk};
ghost use Rattle.session.specs.Session.{AnswersInput};

use crate::answer::answer_line;
use answers::answer::write_answer;
use calls::event::{Action, LicenceEvent};
use clocks::bank::Bank;
use clocks::limits::MOST_FEEDS;
use frames::lines::FrameReader;
use joiner::joiner::Joiner;
use joiner::shelf::Shelf;
use std::alloc::{AllocError, Global};

/// Only so many bytes of an input count.
pub const INPUT_LIMIT: usize = 65_536;

// What the slots hold before anything is put.
const NOTHING: LicenceEvent = LicenceEvent {
    action: Action::Denied,
    seat: 0,
    tool: 0,
};

/// The answer lines to an input, of a joiner just made over this bank. They are those of a run of the joiner on the frames of the input,
/// and so the order is kept in what they say.
pub fn answer_lines<B: Bank + Drop>(
    heap: Global,
    bank: B,
    input: &[u8],
) -> Result<Vec<u8>, AllocError>
    ensures { IfOk result (λ v. AnswersInput (B.Bank.meaning bank) input.now v.items) }
{
    let counted = &input[..input.len().min(INPUT_LIMIT)];
    let mut slots = [NOTHING; MOST_FEEDS as usize];
    let mut shelf = Shelf::new(&mut slots);
    let mut joiner = Joiner::new(bank, &shelf);
    let mut out = Vec::new(heap);
    for line in FrameReader::new(counted) {
        let answer = answer_line(&mut joiner, &mut shelf, line);
        write_answer(&mut out, answer)?;
    }
    Ok(out)
}
