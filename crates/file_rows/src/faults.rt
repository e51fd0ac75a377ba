//! Faults in words, each with its number and all that it carries.

use fm_model::{LoadFault, ProtoFault};
use nc_model::{HeaderFault, LayoutFault};
use row_text::Said;
use srv_reason::{Part, reason_of};

/// Appends a fault of a header.
pub fn put_header_fault(fault: HeaderFault, out: &mut Said) {
    let fault = LoadFault::Header(fault);
    put_load_fault(&fault, out);
    drop(fault);
}

/// Appends a fault of a layout.
pub fn put_layout_fault(fault: LayoutFault, out: &mut Said) {
    let fault = LoadFault::Layout(fault);
    put_load_fault(&fault, out);
    drop(fault);
}

/// Appends why a file isn't taken, in the words of the server, and what these leave out.
pub fn put_load_fault(fault: &LoadFault, out: &mut Said) {
    put_code(fault.code(), out);
    let reason = reason_of(fault);
    out.put_shown(reason.before);
    put_part(reason.first, out);
    out.put_shown(reason.between);
    put_part(reason.second, out);
    out.put_shown(reason.after);
    put_rest(fault, out);
}

// Appends the number of a fault, before what is wrong.
fn put_code(code: u16, out: &mut Said) {
    out.put_number("fault ", code);
    out.put(": ");
}

fn put_part(part: Part<'_>, out: &mut Said) {
    match part {
        Part::Nothing => {}
        Part::Name(name) => out.put_shown(name),
        Part::Number(number) => out.put_number("", number),
        Part::Signed(number) => out.put_number("", number),
    }
}

// Appends where the file ends that a variable passes, and the bytes of the file and the prototype that differ.
fn put_rest(fault: &LoadFault, out: &mut Said) {
    match fault {
        LoadFault::Layout(LayoutFault::DataOutside { len, .. }) => out.put_number(" at ", *len),
        LoadFault::GridDiffers { proto, file, .. } => {
            out.put(": ");
            out.put_hex(&[*file]);
            out.put(" for ");
            out.put_hex(&[*proto]);
        }
        _ => {}
    }
}

/// Appends why a file is no prototype.
pub fn put_proto_fault(fault: &ProtoFault, out: &mut Said) {
    match fault {
        ProtoFault::Header(fault) => return put_header_fault(*fault, out),
        ProtoFault::Layout(fault) => return put_layout_fault(*fault, out),
        _ => put_code(fault.code(), out),
    }
    match fault {
        ProtoFault::TimeNotFirst(name) => put_named(
            "time not first alone in ",
            name.as_slice(),
            out,
        ),
        ProtoFault::BadProtoName(name) => put_named("name ", name.as_slice(), out),
        ProtoFault::NameTaken(name) => put_named("taken name ", name.as_slice(), out),
        ProtoFault::EmptyDimension(name) => put_named("empty dimension ", name.as_slice(), out),
        _ => out.put("no time axis"),
    }
}

/// Appends what a name is, and the name.
pub fn put_named(what: &str, name: &[u8], out: &mut Said) {
    out.put(what);
    out.put_shown(name);
}
