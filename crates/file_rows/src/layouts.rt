//! Where the data of a file lies, and its elements.
ghost use Rattle.std.specs.Prelude.{◌<◌, length};

use super::faults::{put_header_fault, put_layout_fault};
use fm_base::{Bytes, Fail, NoMemory};
use fm_file::read_sound;
use nc_array::FileView;
use nc_model::FormatFault;
use row_text::Said;
use std::alloc::Global;

fn put_fault(fault: FormatFault, out: &mut Said) {
    match fault {
        FormatFault::OfHeader(fault) => put_header_fault(fault, out),
        FormatFault::OfLayout(fault) => put_layout_fault(fault, out),
    }
}

/// Appends the elements of each variable; or how many bytes a record takes, and where the parts of each variable lie.
pub fn put_vars(alloc: Global, bytes: &[u8], with_elements: bool, out: &mut Said) {
    match read_sound(alloc, bytes) {
        Ok(file) => {
            if with_elements {
                put_all_elements(alloc, &file, out);
            } else {
                put_offsets(&file, out);
            }
            drop(file);
        }
        Err(Fail::NoMemory) => out.run_short(),
        Err(Fail::Fault(fault)) => put_fault(fault, out),
    }
}

fn put_offsets(file: &FileView<'_>, out: &mut Said) {
    out.put_number("", file.layout().recsize());
    out.put(" bytes a record");
    for (number, var) in file.header().vars.as_slice().iter().enumerate() {
        out.put("\n");
        out.put_shown(var.name.as_slice());
        put_parts(file, number as u32, out);
    }
}

fn put_parts(file: &FileView<'_>, number: u32, out: &mut Said)
    requires { number < length file.now.layout.header.vars }
{
    let layout = file.layout();
    out.put_number(": ", layout.vsize(number));
    out.put(" bytes at");
    for k in 0..layout.part_count(number) {
        out.put_number(" ", layout.part_begin(number, k));
    }
}

fn put_all_elements(alloc: Global, file: &FileView<'_>, out: &mut Said) {
    for (number, var) in file.header().vars.as_slice().iter().enumerate() {
        out.begin_line();
        out.put_shown(var.name.as_slice());
        out.put(": ");
        put_elements_of(alloc, file, number as u32, out);
    }
}

fn put_elements_of(alloc: Global, file: &FileView<'_>, number: u32, out: &mut Said)
    requires { number < length file.now.layout.header.vars }
{
    let mut elements = Bytes::new(alloc);
    match file.append_elements(number, &mut elements) {
        Ok(()) => out.put_hex(elements.as_slice()),
        Err(NoMemory) => out.run_short(),
    }
}
