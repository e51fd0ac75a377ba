//! The files by each instant of a page, each list of files once.
ghost use Rattle.std.specs.Prelude.{◌≡◌, ◌++◌, get_or, [], Contains, IfOk, IfSome, List as Items};
ghost use Rattle.std.specs.BTreeMap as tree;
ghost use Rattle.std.specs.Option.{option_map};
ghost use Rattle.std.specs.Ordering.{int_cmp};
ghost use Rattle.fm_model.specs.declared.loaded.Loaded.{Loaded as File};
ghost use Rattle.fm_model.specs.Rising.{rising, Rises};
ghost use Rattle.fm_edition.specs.Page as spec;

mod turning;

use crate::instants::{append, in_order};
use crate::maps::file_list::FileList;
use crate::maps::files::Files;
use crate::maps::pages::Change;
use fm_base::{List, NoMemory};
use std::alloc::Global;
use std::marker::Model;
use turning::Turning;

/// An instant, and the index of its files among a page's lists.
#[derive(Clone, Copy)]
pub(crate) struct Entry {
    pub instant: i64,
    pub list: usize,
}

/// The files by each instant of a page, in the instants' order. Neighbours mostly have the same files, so a list stands
/// once, and each instant has its index. A clause sees the files by instant.
#[derive(Drop)]
pub(crate) struct Page {
    entries: List<Entry>,
    lists: List<FileList>,
}

// The entry of an instant.
fn entry_of(entries: &[Entry], instant: i64) -> Option<Entry>
    requires { Rises (spec.instants_of entries.now) }
    ensures one { IfSome result (Contains entries.now) }
    ensures files { (lists : Items (Items File)) → tree.get int_cmp (spec.map_of lists entries.now) instant
        ≡ option_map (λ (entry : Entry). get_or lists entry.list []) result }
{
    match entries.binary_search_by_key(&instant, |entry| entry.instant) {
        Ok(at) => Some(entries[at]),
        Err(_) => None,
    }
}

// The instants of some entries, and others among them.
fn instants_with(alloc: Global, entries: &[Entry], others: &[i64]) -> Result<List<i64>, NoMemory>
    ensures { IfOk result (λ instants. instants ≡ rising (spec.instants_of entries.now ++ others.now)) }
{
    let items = Vec::with_capacity(alloc, entries.len().saturating_add(others.len()))?;
    let mut instants = List { items };
    for entry in entries {
        instants.push(entry.instant)?;
    }
    append(&mut instants, others)?;
    Ok(in_order(instants))
}

impl Model for Page {
    ghost use Rattle.std.specs.Coded.{coded_list, coded_ℤ};
    ghost use Rattle.std_collections.specs.Layout.BTreeMap.{btree_map_code};
    ghost use Rattle.fm_model.specs.contracts.loaded.Loaded as loaded;
    ghost use Rattle.fm_edition.specs.Page.{map_of, Entries, IsPage};

    ghost Value = { Entries };

    ghost coded = { btree_map_code coded_ℤ (coded_list loaded.the_row.coded) };

    ghost view = { λ page. map_of page.lists page.entries };

    ghost invariant = { λ page. IsPage page.lists page.entries };
}

impl Page {
    ghost use Rattle.std.specs.Prelude.{◌≡◌, ◌<◌, ◌+◌, ◌∷◌, [], ℤ, All, IfOk, List as Items, drop, length};
    ghost use Rattle.std.specs.BTreeMap as tree;
    ghost use Rattle.std.specs.Ordering.{int_cmp};
    ghost use Rattle.fm_model.specs.declared.loaded.Loaded.{Loaded as File};
    ghost use Rattle.fm_model.specs.Rising.{Rises};
    ghost use Rattle.fm_list.specs.Change.{added, HasGone};
    ghost use Rattle.fm_list.specs.Selected.{AreOwn};
    ghost use Rattle.fm_edition.specs.Page as spec;

    // A page without instants.
    pub(crate) fn new(alloc: Global) -> Page
        ensures { result.entries ≡ [] }
    {
        Page {
            entries: List::new(alloc),
            lists: List::new(alloc),
        }
    }

    // How many instants there are.
    pub(crate) fn len(&self) -> usize
        ensures { result ≡ length self.now.entries }
    {
        self.entries.len()
    }

    // An instant and its files, by its index.
    pub(crate) fn entry(&self, at: usize) -> (i64, Files<'_>)
        requires { at < length self.now.entries }
        ensures { drop at self.now.entries ≡ (result.0, result.1) ∷ drop (at + 1) self.now.entries }
    {
        let Entry { instant, list } = self.entries.as_slice()[at];
        (instant, self.lists.as_slice()[list].all())
    }

    // The files by an instant.
    pub(crate) fn files(&self, instant: i64) -> Files<'_>
        ensures { result ≡ spec.found_in self.now instant }
    {
        match entry_of(self.entries.as_slice(), instant) {
            Some(entry) => self.lists.as_slice()[entry.list].all(),
            None => Files::of(&[]),
        }
    }

    // The page after an operation to those instants that it touches, where `touched` are those of the page.
    pub(crate) fn after(
        &self,
        alloc: Global,
        touched: &[i64],
        change: &Change<'_>,
    ) -> Result<Page, NoMemory>
        requires touched { Rises touched.now }
        requires own { AreOwn change.now.by change.now.op.now change.now.own.now }
        requires added { change.now.added.now ≡ added change.now.op.now }
        requires gone { All (λ (entry : ℤ × Items File). HasGone change.now.went.now change.now.op.now entry.1)
            self.now.entries }
        ensures ordered { IfOk result (tree.IsOrdered int_cmp) }
        ensures set { IfOk result (λ page. (key : ℤ) → tree.get int_cmp page key
            ≡ spec.turned_at change.now.by touched.now change.now.op.now key (tree.get int_cmp self.now key)) }
    {
        let instants = instants_with(alloc, self.entries.as_slice(), touched)?;
        let mut entries = List::new(alloc);
        let mut turning = Turning::new(alloc, self.lists.as_slice())?;
        for instant in instants.as_slice() {
            let entry = entry_of(self.entries.as_slice(), *instant);
            turning.push(alloc, &mut entries, *instant, entry, touched, change)?;
        }
        Ok(Page {
            entries,
            lists: turning.lists,
        })
    }
}
