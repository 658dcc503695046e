// A short story at a seat desk: two feeds, the licence service and a gateway, put what becomes of a seat, and the desk takes it in one order.
#![tactic(auto)]

use crate::desk::{Desk, NINE, event};
use banks::beside::Beside;
use banks::scale::Scale;
use calls::event::Action;
use forms::posix::Posix;
use joiner::joiner::Joiner;
use joiner::shelf::Shelf;
use leap::bulletin::Bulletin;
use rungs::tai::Tai;

mod desk;

type Clock = Scale<Posix, Tai>;

type Clocks = Beside<Clock, Clock>;

const CLOCK: Clock = Scale {
    form: Posix,
    rung: Tai,
};

const SERVICE: u8 = 0;

const GATEWAY: u8 = 1;

fn main(rt: HostRuntime) -> anyhow::Result<()> {
    let mut slots = [event(Action::Denied); 2];
    let shelf = Shelf::new(&mut slots);
    let clocks = Beside {
        left: CLOCK,
        right: CLOCK,
    };
    println!(rt; "A desk for two feeds: feed 0 is the licence service, feed 1 a gateway.")?;
    let mut desk = Desk {
        rt: &rt,
        joiner: Joiner::new(clocks, &shelf),
        shelf,
    };
    morning(&mut desk)?;
    evening(&mut desk)
}

fn morning(desk: &mut Desk<'_>) -> anyhow::Result<()> {
    desk.take()?;
    desk.put(SERVICE, NINE, Action::Taken)?;
    desk.put(SERVICE, NINE + 60, Action::GivenBack)?;
    desk.put(GATEWAY, NINE + 30, Action::Denied)?;
    desk.take()?;
    desk.put(SERVICE, NINE + 20, Action::GivenBack)?;
    desk.put(SERVICE, NINE + 60, Action::GivenBack)?;
    desk.take()?;
    desk.take()
}

fn evening(desk: &mut Desk<'_>) -> anyhow::Result<()> {
    desk.put(GATEWAY, NINE + 90, Action::Taken)?;
    desk.close(GATEWAY)?;
    desk.put(GATEWAY, NINE + 120, Action::GivenBack)?;
    desk.close(SERVICE)?;
    desk.take()?;
    desk.take()?;
    desk.renew(Bulletin {
        change: 1,
        day: 20_089,
        expiry: 20_270,
    })?;
    desk.renew(Bulletin {
        change: 1,
        day: 17_532,
        expiry: 20_270,
    })
}
