// framejoin: reads frames, writes answers.
#![tactic(auto)]

use session::run::{INPUT_LIMIT, answer_lines};
use standard::bank::standard_bank;
use std::io::{Read, Write};

fn main(rt: HostRuntime) -> anyhow::Result<()> {
    let mut input = Vec::new(rt.alloc());
    rt.stdin().take(INPUT_LIMIT as u64).read_to_end(&mut input)?;
    let answers = answer_lines(rt.alloc(), standard_bank(), input.as_slice())?;
    rt.stdout().write_all(answers.as_slice())?;
    Ok(())
}
