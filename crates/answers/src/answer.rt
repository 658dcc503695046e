// Answers as lines of hexadecimal text.
ghost use Rattle.std.specs.Prelude.{◌≡◌, ◌++◌, OnOk};
ghost use Rattle.wire.specs.Answer.{answer_line, answer_bytes, outcome_bytes, record_bytes, refusal_bytes, fault_bytes};
ghost use Rattle.wire.specs.Bytes.{hexed};

use crate::hex::Part;
use calls::call::{Handed, Reply};
use calls::event::LicenceEvent;
use refusals::fault::Fault;
use refusals::refusal::Refusal;
use std::alloc::AllocError;
use wire::answer::Answer;
use wire::kind::{Kind, NO_KIND};
use wire::text::LINE_FEED;

/// Adds the line of an answer to a text.
pub fn write_answer(out: &mut Vec<u8>, answer: Answer) -> Result<(), AllocError>
    ensures { OnOk result (out.new.items ≡ out.old.items ++ answer_line answer) }
{
    write_fields(out, answer)?;
    out.push(LINE_FEED)?;
    Ok(())
}

fn write_fields(out: &mut Vec<u8>, answer: Answer) -> Result<(), AllocError>
    ensures { OnOk result (out.new.items ≡ out.old.items ++ hexed (answer_bytes answer)) }
{
    match answer {
        Ok(Reply::Put(outcome)) => (Kind::Put, outcome).write(out),
        Ok(Reply::Close(outcome)) => (Kind::Close, outcome).write(out),
        Ok(Reply::Take(outcome)) => (Kind::Take, outcome).write(out),
        Ok(Reply::Renew(outcome)) => (Kind::Renew, outcome).write(out),
        Err(refusal) => (NO_KIND, refusal).write(out),
    }
}

// Number 0 where nothing is refused, and then what was answered.
impl<T: Part> Part for Result<T, Refusal> {
    ghost bytes = { outcome_bytes T.bytes };

    fn write(&self, out: &mut Vec<u8>) -> Result<(), AllocError> {
        match self {
            Ok(done) => {
                0u8.write(out)?;
                done.write(out)
            }
            Err(refusal) => refusal.write(out),
        }
    }
}

impl Part for Handed<LicenceEvent> {
    ghost bytes = { record_bytes };

    fn write(&self, out: &mut Vec<u8>) -> Result<(), AllocError> {
        (self.feed, (self.tick, self.body)).write(out)
    }
}

// The number of the refusal, and what comes with it.
impl Part for Refusal {
    ghost bytes = { refusal_bytes };

    fn write(&self, out: &mut Vec<u8>) -> Result<(), AllocError> {
        self.number().write(out)?;
        match self {
            Refusal::Clock(fault) => fault.write(out),
            Refusal::NoneWaits { idle, .. } => idle.write(out),
            _ => Ok(()),
        }
    }
}

impl Part for Fault {
    ghost bytes = { fault_bytes };

    fn write(&self, out: &mut Vec<u8>) -> Result<(), AllocError> {
        (self.rung, (self.way.number(), self.count)).write(out)
    }
}
