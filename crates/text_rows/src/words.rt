//! Words of a command, which stand between bars: their job, the text that they ask for, and why they are no job.

use fm_base::{Bytes, Fail, List, NoMemory};
use fm_model::Site;
use row_text::Said;
use srv_words::{Job, Serving, ServingMany, Spec, Step, Stepping, read_job, reason_of, text_asked};
use std::alloc::Global;

/// What is wanted of words: their job, whether the text that they ask for has a part, or why they are no job.
#[derive(Clone, Copy)]
pub enum Wanted<'a> {
    Job,
    Part(&'a str),
    Reason,
}

/// Puts what is wanted of the words between the bars of a line, or of no words.
pub fn put_words(alloc: Global, line: Option<&[u8]>, wanted: Wanted<'_>, out: &mut Said) {
    let mut words = List::new(alloc);
    match put_each(alloc, line, &mut words) {
        Ok(()) => put_wanted(alloc, &words, wanted, out),
        Err(NoMemory) => out.run_short(),
    }
    drop(words);
}

fn put_each(alloc: Global, line: Option<&[u8]>, out: &mut List<Bytes>) -> Result<(), NoMemory> {
    let Some(line) = line else {
        return Ok(());
    };
    for word in line.split(|byte| *byte == b'|') {
        out.push(Bytes::copy_of(alloc, word)?)?;
    }
    Ok(())
}

fn put_wanted(alloc: Global, words: &List<Bytes>, wanted: Wanted<'_>, out: &mut Said) {
    match wanted {
        Wanted::Job => put_read(alloc, words, out),
        Wanted::Part(part) => put_found(alloc, words, part, out),
        Wanted::Reason => put_reason(alloc, words, out),
    }
}

// Puts whether words ask for a text that has this part.
fn put_found(alloc: Global, words: &List<Bytes>, part: &str, out: &mut Said) {
    match text_asked(alloc, words) {
        Ok(Some(text)) => out.put(if text.as_str().contains(part) {
            "yes"
        } else {
            "no"
        }),
        Ok(None) => out.put("no text"),
        Err(NoMemory) => out.run_short(),
    }
}

// Puts why words are no job: the line that a person is shown.
fn put_reason(alloc: Global, words: &List<Bytes>, out: &mut Said) {
    match reason_of(alloc, words) {
        Ok(line) => out.put(line.as_str()),
        Err(NoMemory) => out.run_short(),
    }
}

fn put_read(alloc: Global, words: &List<Bytes>, out: &mut Said) {
    match read_job(alloc, words) {
        Ok(job) => {
            put_job(&job, out);
            drop(job);
        }
        Err(Fail::Fault(_)) => out.put("bad words"),
        Err(Fail::NoMemory) => out.run_short(),
    }
}

fn put_job(job: &Job, out: &mut Said) {
    match job {
        Job::Once(stepping) => put_stepping("once", stepping, out),
        Job::Twod {
            stepping,
            with_values,
            constraint,
        } => put_twod(stepping, *with_values, constraint, out),
        Job::Extract {
            stepping,
            view,
            constraint,
            version,
        } => put_extract(stepping, view, constraint, *version, out),
        Job::Pull { address, target } => put_pull(address, target, out),
        Job::Check { path } => put_text("check", path, out),
        Job::Load { seed, files } => put_load(*seed, *files, out),
        Job::Serve(serving) => put_serving(serving, out),
        Job::Many(serving) => put_serving_many(serving, out),
    }
}

fn put_twod(stepping: &Stepping, with_values: bool, constraint: &Bytes, out: &mut Said) {
    put_stepping("twod", stepping, out);
    out.put(if with_values { " dods" } else { " dds" });
    put_text(" constraint", constraint, out);
}

fn put_extract(stepping: &Stepping, view: &Bytes, constraint: &Bytes, version: u8, out: &mut Said) {
    put_stepping("extract", stepping, out);
    put_text(" view", view, out);
    put_text(" constraint", constraint, out);
    out.put_number(" format ", version);
}

fn put_pull(address: &Bytes, target: &Bytes, out: &mut Said) {
    put_text("pull address", address, out);
    put_text(" target", target, out);
}

fn put_load(seed: u32, files: u32, out: &mut Said) {
    out.put_number("load ", seed);
    out.put_number(" ", files);
}

// A command, and the collection and the steps on it.
fn put_stepping(command: &str, stepping: &Stepping, out: &mut Said) {
    out.put(command);
    put_site(&stepping.site, out);
    put_text(" proto", &stepping.proto, out);
    put_steps(stepping.steps.as_slice(), out);
}

fn put_steps(steps: &[Step], out: &mut Said) {
    for step in steps {
        put_step(step, out);
    }
}

// A key and a text in brackets.
fn put_text(key: &str, text: &Bytes, out: &mut Said) {
    out.put(key);
    out.put(" [");
    out.put_shown(text.as_slice());
    out.put("]");
}

fn put_site(site: &Site, out: &mut Said) {
    put_text(" name", &site.name, out);
    out.put_number(" epoch ", site.epoch);
    put_text(" mark", &site.mark, out);
}

fn put_step(step: &Step, out: &mut Said) {
    match step {
        Step::Put(path) => put_text(" put", path, out),
        Step::Expire(cutoff) => out.put_number(" expire ", *cutoff),
        Step::Retract(name) => put_text(" retract", name, out),
        Step::Ask(count) => out.put_number(" ask ", *count),
    }
}

fn put_serving(serving: &Serving, out: &mut Said) {
    out.put("serve");
    put_site(&serving.site, out);
    put_text(" proto", &serving.proto, out);
    put_doors(&serving.listen, serving.workers, serving.connections, out);
    put_clock(serving.keep, serving.ticks, out);
    put_inboxes(serving.inboxes.as_slice(), out);
}

fn put_serving_many(serving: &ServingMany, out: &mut Said) {
    out.put("many");
    put_doors(&serving.listen, serving.workers, serving.connections, out);
    put_clock(serving.keep, serving.ticks, out);
    for spec in serving.specs.as_slice() {
        put_spec(spec, out);
    }
}

fn put_doors(listen: &Bytes, workers: u32, connections: u32, out: &mut Said) {
    put_text(" listen", listen, out);
    out.put_number(" workers ", workers);
    out.put_number(" connections ", connections);
}

fn put_clock(keep: Option<u32>, ticks: u32, out: &mut Said) {
    match keep {
        Some(seconds) => out.put_number(" keep ", seconds),
        None => out.put(" no clock"),
    }
    out.put_number(" ticks ", ticks);
}

fn put_spec(spec: &Spec, out: &mut Said) {
    out.put(";");
    put_site(&spec.site, out);
    put_text(" proto", &spec.proto, out);
    put_text(" from", &spec.inbox, out);
}

fn put_inboxes(inboxes: &[Bytes], out: &mut Said) {
    for inbox in inboxes {
        put_text(" from", inbox, out);
    }
}
