//! Targets, in a collection `gfs`.

use fm_base::{Bytes, Fail, NoMemory};
use fm_model::{Site, ViewName};
use row_text::Said;
use std::alloc::Global;
use web_path::{PathFault, Service, Target, read_target};

/// Puts what a target asks for in the collection of an epoch, or its fault; false where the epoch is no number.
pub fn put_target(alloc: Global, epoch: &str, target: &[u8], out: &mut Said) -> bool {
    let Ok(epoch) = epoch.parse::<i64>() else {
        return false;
    };
    match site_of(alloc, epoch) {
        Ok(site) => {
            put_asked(alloc, target, &site, out);
            drop(site);
        }
        Err(NoMemory) => out.run_short(),
    }
    true
}

fn site_of(alloc: Global, epoch: i64) -> Result<Site, NoMemory> {
    Ok(Site {
        name: Bytes::copy_of(alloc, b"gfs")?,
        epoch,
        mark: Bytes::new(alloc),
    })
}

fn put_asked(alloc: Global, target: &[u8], site: &Site, out: &mut Said) {
    match read_target(alloc, target, site) {
        Ok(target) => {
            put_read(&target, out);
            drop(target);
        }
        Err(Fail::Fault(fault)) => put_fault(fault, out),
        Err(Fail::NoMemory) => out.run_short(),
    }
}

fn put_read(target: &Target, out: &mut Said) {
    out.put(match target.service {
        Service::Dds => "dds of ",
        Service::Das => "das of ",
        Service::Dods => "dods of ",
    });
    put_view(target.view, out);
    out.put(", asks [");
    out.put_shown(target.constraint.as_slice());
    out.put("], label ");
    out.put_shown(target.label.as_slice());
}

fn put_view(view: ViewName, out: &mut Said) {
    match view {
        ViewName::Best => out.put("best"),
        ViewName::BestFrom(offset) => out.put_number("best from ", offset),
        ViewName::Run(instant) => out.put_number("run ", instant),
        ViewName::Offset(offset) => out.put_number("offset ", offset),
        ViewName::Forecast(instant) => out.put_number("forecast ", instant),
    }
}

fn put_fault(fault: PathFault, out: &mut Said) {
    out.put_number("refused ", fault.code());
    if let PathFault::BadEscape(at) = fault {
        out.put_number(" at ", at);
    }
}
