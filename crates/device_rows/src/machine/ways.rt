//! Doors of the machine, and the links that come through them.

use super::doors::{last_address, put_door_step};
use super::links::put_link_step;
use super::opened::put_open_step;
use crate::stepped::Stepped;
use dev_host::{Collections, HostOpener, RealOpener, TcpDoor, TcpLink, Teller};
use dev_traits::Door;
use row_text::Said;
use std::net::SocketAddr;

// A door of the machine, and a link that comes through it.
pub(crate) type HostDoor = TcpDoor<HostRuntime, Teller<HostRuntime>>;

pub(crate) type HostLink = TcpLink<HostRuntime>;

// Doors, what opens them, and the links that are out. A step is one of the last door, or of the last link, whose key is
// its index.
#[derive(Drop)]
pub(crate) struct Ways {
    rt: HostRuntime,
    opener: HostOpener,
    doors: Vec<HostDoor>,
    links: Vec<HostLink>,
}

impl Ways {
    pub(crate) fn new(rt: HostRuntime) -> Ways {
        let tell = Teller::new(rt, rt.stderr(), true);
        Ways {
            rt,
            opener: RealOpener::new(rt, tell, Collections::none()),
            doors: Vec::new(rt.alloc()),
            links: Vec::new(rt.alloc()),
        }
    }

    // The address of the last door.
    pub(crate) fn address(&self) -> Option<SocketAddr> {
        last_address(self.doors.as_slice())
    }

    fn put_open(&mut self, step: &str, out: &mut Said) -> bool {
        let address = self.address();
        put_open_step(
            self.rt,
            &mut self.opener,
            &mut self.doors,
            address,
            step,
            out,
        )
    }
}

impl Stepped for Ways {
    fn put_step(&mut self, step: &str, out: &mut Said) -> bool {
        put_door_step(self.rt, &mut self.doors, step, out)
            || put_link_step(&mut self.doors, &mut self.links, step, out)
            || put_way_step(&mut self.doors, &mut self.links, step, out)
            || self.put_open(step, out)
    }
}

// Does a step of the last link: `done` gives it back, `delay` tells whether small puts wait for more. It is false where
// a line says none.
fn put_way_step(
    doors: &mut Vec<HostDoor>,
    links: &mut Vec<HostLink>,
    step: &str,
    out: &mut Said,
) -> bool {
    match (step, doors.last_mut(), links.last()) {
        ("done", Some(door), _) => give_back(door, links),
        ("delay", _, Some(link)) => put_delay(link, out),
        _ => false,
    }
}

fn give_back(door: &mut HostDoor, links: &mut Vec<HostLink>) -> bool {
    let Some(link) = links.pop() else {
        return false;
    };
    door.done(links.len(), link);
    true
}

fn put_delay(link: &HostLink, out: &mut Said) -> bool {
    out.put(match link.stream.nodelay() {
        Ok(true) => "no delay\n",
        _ => "delay\n",
    });
    true
}
