// What a line of the input is answered.
use calls::call::Reply;
use calls::event::LicenceEvent;
use refusals::refusal::Refusal;

/// What the line's call was replied, or the refusal of a line that makes no call.
pub type Answer = Result<Reply<LicenceEvent>, Refusal>;
