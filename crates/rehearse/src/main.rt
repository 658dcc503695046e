// rehearse: the next leap second, before it comes. What the six clocks of the standard bank show around the step, and in which order a joiner hands out events that are written through it.
#![tactic(auto)]

use crate::arguments::Plan;
use crate::rehearsal::Rehearsal;
use crate::story::event;
use calls::event::Action;
use joiner::joiner::Joiner;
use joiner::shelf::Shelf;
use leap::table::LeapTable;
use readable::clock::Clock;
use standard::bank::standard_bank;
use std::env;
use std::process::ExitCode;

mod arguments;
mod rehearsal;
mod step;
mod story;
mod walk;
mod words;

fn main(rt: HostRuntime) -> anyhow::Result<ExitCode> {
    let words = env::args(&rt)?.skip(1).collect::<Vec<String>>(rt.alloc())?;
    match Plan::of_words(words.as_slice(), LeapTable::starting().expiry()) {
        Ok(plan) => {
            rehearse(&rt, plan)?;
            Ok(ExitCode::SUCCESS)
        }
        Err(error) => {
            eprintln!(rt; "rehearse: {error}")?;
            eprintln!(rt; "usage: rehearse [yyyy-mm-dd [insert|delete]]")?;
            eprintln!(rt;
                "The second is inserted or deleted right before that day. With no day it is inserted before the next 1 January or 1 July after the leap table's expiry."
            )?;
            Ok(ExitCode::FAILURE)
        }
    }
}

fn rehearse(rt: &HostRuntime, plan: Plan) -> anyhow::Result<()> {
    let mut slots = [event(Action::Denied); Clock::ALL.len()];
    let shelf = Shelf::new(&mut slots);
    let mut rehearsal = Rehearsal {
        rt,
        joiner: Joiner::new(standard_bank(), &shelf),
        shelf,
    };
    if let Some(step) = rehearsal.announce(plan)? {
        rehearsal.walk(&step)?;
        rehearsal.play(&step)?;
    }
    Ok(())
}
