//! Which files have a name, a run or a valid time.
ghost use Rattle.std.specs.Prelude.{◌≡◌, ◌≢◌, [], ◌∷◌, ◌++◌, AllPairs, IfSome, IsNone, List, None, Some, false, position, slice_get, true};
ghost use Rattle.std.specs.List.{list_any};
ghost use Rattle.std.specs.Ordering.{int_eq};
ghost use Rattle.fm_model.specs.declared.loaded.Loaded.{Loaded as File};
ghost use Rattle.fm_model.specs.Cell.{best, cell, has_time};
ghost use Rattle.fm_model.specs.Collection.{holds, holds_older};
ghost use Rattle.fm_model.specs.Rising.{Rises};
ghost use Rattle.fm_list.specs.Found.{cell_in};
ghost use Rattle.fm_list.specs.Selected.{AreSound, HasSoundTimes};

use crate::offset::keeps_least_offset;
use crate::placed::Placed;
use crate::spacing::{Spacing, even_index};
use fm_base::Arc;
use fm_model::Loaded;

/// Whether a file has this name.
#[tactic(auto, unfolding(fm_model::specs::Collection::holds))]
pub fn has_name(files: &[Placed], name: &[u8]) -> bool
    ensures { result ≡ holds files.now name.now }
{
    files.iter().any(|file| file.get().name.as_slice() == name)
}

/// Whether a file is of a run before the cutoff.
#[tactic(auto, unfolding(fm_model::specs::Collection::holds_older))]
pub fn has_older(files: &[Placed], cutoff: i64) -> bool
    ensures { result ≡ holds_older files.now cutoff }
{
    files.iter().any(|file| file.run() < cutoff)
}

// Whether a file is of a run.
pub(crate) fn has_run(files: &[Placed], run: i64) -> bool
    ensures { result ≡ list_any (λ (file : File). int_eq file.run run) files.now }
{
    files.iter().any(|file| file.run() == run)
}

/// Whether a file is of the run of one of the others.
pub fn shares_run(files: &[Placed], others: &[Placed]) -> bool
    ensures { result ≡ list_any (λ (other : File). list_any (λ (file : File). int_eq file.run other.run) files.now)
        others.now }
{
    others.iter().any(|other| has_run(files, other.run()))
}

/// Whether an instant is one of some rising ones.
pub fn is_among(instants: &[i64], instant: i64) -> bool
    requires { Rises instants.now }
    ensures { result ≡ list_any (λ other. int_eq other instant) instants.now }
{
    match instants.binary_search(&instant) {
        Ok(_) => true,
        Err(_) => false,
    }
}

// An index of a valid time among some times: a guess where it stands there, or what a search finds. Where the times
// don't rise, a search may find none.
fn searched(times: &[i64], guess: usize, valid: i64) -> Option<usize>
    ensures found { IfSome result (λ index. slice_get times.now index ≡ Some valid) }
    ensures none { IsNone result → Rises times.now → false ≡ list_any (λ time. int_eq time valid) times.now }
{
    if guess < times.len() && times[guess] == valid {
        return Some(guess);
    }
    match times.binary_search(&valid) {
        Ok(index) => Some(index),
        Err(_) => None,
    }
}

// The first index of a valid time among times, by a walk.
fn walked(times: &[i64], valid: i64) -> Option<usize>
    ensures { result ≡ position (λ time. int_eq time valid) times.now }
{
    times.iter().position(|time| *time == valid)
}

// The first index of a valid time among times that differ. Where they don't rise, a walk finds what a search may not.
fn first_index(times: &[i64], guess: usize, rise: bool, valid: i64) -> Option<usize>
    requires differ { AllPairs (λ time other. time ≢ other) times.now }
    requires rise { rise ≡ true → Rises times.now }
    ensures { result ≡ position (λ time. int_eq time valid) times.now }
{
    if let Some(index) = searched(times, guess, valid) {
        return Some(index);
    }
    if rise {
        return None;
    }
    walked(times, valid)
}

// The first index of a valid time in a file, where a look at its times begins at the index `near`.
fn index_among(file: &Placed, near: usize, rise: bool, valid: i64) -> Option<u32>
    requires sound { HasSoundTimes file.now }
    requires rise { rise ≡ true → Rises file.now.times }
    ensures { result ≡ position (λ time. int_eq time valid) file.now.times }
{
    let times = file.get().times.as_slice();
    match first_index(times, near, rise, valid) {
        Some(index) => Some(index as u32),
        None => None,
    }
}

// The first index of a valid time in a file. Where the times lie evenly apart no look at them is needed. Else one
// begins at the index `near`.
fn time_in(file: &Placed, valid: i64, near: usize) -> Option<u32>
    requires { HasSoundTimes file.now }
    ensures { result ≡ position (λ time. int_eq time valid) file.now.times }
{
    match file.spacing() {
        Spacing::Even { count, step, first } => even_index(count, step, first, valid),
        Spacing::Rising => index_among(file, near, true, valid),
        Spacing::Unknown => index_among(file, near, false, valid),
    }
}

// The index of a valid time in a file, where the file is of this run. A look at its times begins at the index `near`.
fn index_in(file: &Placed, run: i64, valid: i64, near: usize) -> Option<u32>
    requires { HasSoundTimes file.now }
    ensures { result ≡ cell_in run valid file.now }
{
    let own = file.run();
    if own != run {
        return None;
    }
    time_in(file, valid, near)
}

/// The last file of a run with a valid time, and the time's index in it. A look into a file begins at the index `near`.
pub fn cell_of(files: &[Placed], run: i64, valid: i64, near: usize) -> Option<(&Arc<Loaded>, u32)>
    requires { AreSound files.now }
    ensures found { IfSome result (λ found. cell files.now run valid ≡ Some (found.0.now, found.1)) }
    ensures none { IsNone result → cell files.now run valid ≡ None }
{
    let mut before = files.len();
    while before > 0 {
        before -= 1;
        let file = &files[before];
        if let Some(index) = index_in(file, run, valid, near) {
            return Some((file.owner(), index));
        }
    }
    None
}

// The best run of some files and one more that has the valid time, where `greatest` is that of the others.
pub(crate) fn raised_by(
    greatest: Option<i64>,
    file: &Placed,
    valid: i64,
    least: Option<i64>,
) -> Option<i64>
    requires { has_time valid file.now ≡ true }
    ensures { (others : List File) → best others valid least ≡ greatest
        → best (others ++ file.now ∷ []) valid least ≡ result }
{
    let own = file.run();
    if let Some(run) = greatest {
        if own <= run {
            return greatest;
        }
    }
    if !keeps_least_offset(least, own, valid) {
        return greatest;
    }
    Some(own)
}
