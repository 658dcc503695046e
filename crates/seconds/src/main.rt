// seconds: a table of the seconds around the leap second at the end of 2016, as each standard clock shows them.
#![tactic(auto)]

mod grid;
mod wall;

use crate::grid::Grid;
use crate::wall::Wall;
use clocks::limits::SECOND;
use leap::table::LeapTable;
use readable::clock::Clock;
use readable::stamp::Stamp;

// 2016-12-31T23:59:58.
const FIRST: Stamp = Stamp {
    clock: Clock::Utc,
    fields: (20_161_231, 235_958 * SECOND),
};

// How long after it each line is: the third is the inserted second.
const SINCE: [u64; 5] = [0, SECOND, 2 * SECOND, 3 * SECOND, 4 * SECOND];

fn main(rt: HostRuntime) -> anyhow::Result<()> {
    let table = LeapTable::starting();
    let first = FIRST.read(&table)?;
    let mut wall = Wall::new(rt.alloc(), table);
    let mut grid = Grid::new(rt.alloc(), wall.head()?)?;
    for since in SINCE {
        grid.push(wall.row(first.saturating_add(since))?)?;
    }
    grid.print(&rt)?;
    println!(rt)?;
    wall.print_legend(&rt)
}
