// convert: reads stamps of the standard clocks, a line each, and prints what every clock shows at that moment.
#![tactic(auto)]

mod bad_line;
mod line;
mod numbers;
mod page;

use crate::page::Page;
use leap::table::LeapTable;
use std::io::{BufRead, BufReader};

fn main(rt: HostRuntime) -> anyhow::Result<()> {
    let page = Page {
        rt: &rt,
        table: LeapTable::starting(),
    };
    let input = BufReader::new(rt.alloc(), rt.reader())?;
    for (place, line) in input.split(rt.alloc(), b'\n').enumerate() {
        page.answer(place.saturating_add(1), line?.as_slice())?;
    }
    Ok(())
}
