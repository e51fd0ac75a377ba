//! The steps of a row over a collection: operations and questions, in the order of its lines.

use super::collection::put_done;
use super::lent::put_lent;
use super::moments::read_moment;
use super::operations::{put_many, put_one};
use super::prototype::prototype_of;
use super::questions::put_asked;
use pub_look::Plain;
use row_text::{File, Row, Said};
use std::alloc::Global;

/// Puts what is said of the steps of a row. `None` where it is of another form, or memory runs out.
pub fn put_steps(alloc: Global, files: &[File], row: &Row<'_>, out: &mut Said) -> Option<()> {
    let proto = prototype_of(alloc, files, row.value("prototype")?)?;
    let mut plain = Plain::open(alloc, proto).ok()?;
    let put = put_each(alloc, files, &mut plain, row, out);
    drop(plain);
    put
}

fn put_each(
    alloc: Global,
    files: &[File],
    plain: &mut Plain,
    row: &Row<'_>,
    out: &mut Said,
) -> Option<()> {
    for field in &row.fields {
        put_field(alloc, files, plain, field.key, field.value.as_str(), out)?;
    }
    Some(())
}

// Does the step of a field, where it is one.
fn put_field(
    alloc: Global,
    files: &[File],
    plain: &mut Plain,
    key: &str,
    value: &str,
    out: &mut Said,
) -> Option<()> {
    match key {
        "name" | "want" | "prototype" => Some(()),
        _ => {
            out.begin_line();
            put_step(alloc, files, plain, key, value, out)
        }
    }
}

// Puts what an operation or a question says.
fn put_step(
    alloc: Global,
    files: &[File],
    plain: &mut Plain,
    key: &str,
    value: &str,
    out: &mut Said,
) -> Option<()> {
    match key {
        "put" => put_one(alloc, files, plain, value, out),
        "puts" => put_many(alloc, files, plain, value, out),
        "expire" => put_done(plain.expire(alloc, read_moment(value)?), out),
        "retract" => put_done(plain.retract(alloc, value.as_bytes()), out),
        "lent" => put_lent(alloc, plain, value, out),
        "ask" => put_asked(alloc, plain, value, out),
        _ => None,
    }
}
