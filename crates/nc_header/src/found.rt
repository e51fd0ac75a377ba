//! The items of a list that were read so far, with their names in a set.
ghost use Rattle.std.specs.Prelude.{◌≡◌, [], ◌∷◌, ◌++◌, map, OnOk, OnErr};
ghost use Rattle.nc_model.specs.Format.{has_name};

use fm_base::{List, NoMemory};
use nc_model::{Attr, Dim, NcVar};
use std::alloc::Global;
use std::collections::BTreeSet;
use std::marker::Model;

// What has a name.
pub(crate) trait Named {
    ghost use Rattle.std.specs.Prelude.{ℕ, List};

    ghost name_of: { Self → List ℕ };
}

impl Named for Dim {
    ghost name_of = { λ dim. dim.name };
}

impl Named for Attr {
    ghost name_of = { λ attr. attr.name };
}

impl Named for NcVar {
    ghost name_of = { λ var. var.name };
}

// The items of a list so far, and their names as they stand in the file. The set is what makes a look-up short.
#[derive(Drop)]
pub(crate) struct Found<'a, T: Named> {
    items: Vec<T>,
    names: BTreeSet<&'a [u8]>,
}

impl<'a, T: Named> Model for Found<'a, T> {
    ghost use Rattle.std.specs.Prelude.{List, map};
    ghost use Rattle.std.specs.Coded.{coded_list};
    ghost use Rattle.nc_header.specs.Names.{HoldsNames};

    ghost Value = { List T };

    ghost coded = { coded_list T.code };

    ghost view = { λ found. found.items.items };

    ghost invariant = { λ found. HoldsNames found.names (map T.name_of found.items.items) };
}

impl<'a, T: Named> Found<'a, T> {
    pub fn new(alloc: Global) -> Found<'a, T>
        ensures { result ≡ [] }
    {
        Found {
            items: Vec::new(alloc),
            names: BTreeSet::new(alloc),
        }
    }

    pub fn as_slice(&self) -> &[T]
        ensures { result.now ≡ self.now }
    {
        self.items.as_slice()
    }

    /// Whether an item has this name.
    pub fn has(&self, name: &[u8]) -> bool
        ensures { result ≡ has_name (map T.name_of self.now) name.now }
    {
        self.names.contains(name)
    }
}

impl<'a, T: Named + Drop> Found<'a, T> {
    /// Adds an item of this name at the end. An `Err` changes nothing.
    pub fn push(&mut self, name: &'a [u8], item: T) -> Result<(), NoMemory>
        requires { T.name_of item ≡ name.now }
        ensures ok { OnOk result (self.new ≡ self.old ++ item ∷ []) }
        ensures err { OnErr result (self.new ≡ self.old) }
    {
        self.items.reserve(1)?;
        self.names.insert(name)?;
        self.items.push_reserved(item);
        Ok(())
    }

    pub fn into_list(self) -> List<T>
        ensures { result ≡ self.entry }
    {
        let Found { items, names: _ } = self;
        List { items }
    }
}
