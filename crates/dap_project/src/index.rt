//! The declarations of a dataset by the codes of their names, so that a clause looks at those of its name's code alone.
ghost use Rattle.std.specs.Prelude.{◌≡◌, ◌<◌, [], IfOk, List as Items, OnOk, length, replicate};
ghost use Rattle.std.specs.List.{slice_index_or};
ghost use Rattle.dap_model.specs.declared.declaration.Decl as declarations;
ghost use Rattle.dap_project.specs.Buckets as spec;

use crate::picked::name_of;
use dap_model::Decl;
use fm_base::{Bytes, List, NoMemory};
use std::alloc::Global;

// The indices of the declarations of each bucket, rising. The bucket of a name is its code, modulo their number.
#[derive(Drop)]
pub(crate) struct Index {
    pub(crate) buckets: List<List<usize>>,
}

// The code of a name.
#[tactic(auto, unfolding(crate::specs::Buckets::code_from))]
fn code_of(name: &[u8]) -> usize
    ensures { result ≡ spec.code_from 0 name.now }
{
    let mut left = name;
    let mut code = 0;
    while let [byte, others @ ..] = left {
        code = (code * 31 + usize::from(*byte)) % 65_536;
        left = others;
    }
    code
}

// The bucket of a name, among `count`.
#[tactic(auto, unfolding(crate::specs::Buckets::bucket_of))]
fn bucket_of(count: usize, name: &[u8]) -> usize
    requires { 0 < count }
    ensures bucket { result ≡ spec.bucket_of count name.now }
    ensures within { result < count }
{
    code_of(name) % count
}

// Buckets without indices.
fn empty_buckets(alloc: Global, count: usize) -> Result<List<List<usize>>, NoMemory>
    ensures { IfOk result (λ buckets. buckets ≡ replicate count []) }
{
    let items = Vec::with_capacity(alloc, count)?;
    let mut buckets = List { items };
    for _bucket in 0..count {
        buckets.push(List::new(alloc))?;
    }
    Ok(buckets)
}

// Puts the index of each declaration into its bucket.
fn fill(decls: &[Decl], buckets: &mut [List<usize>]) -> Result<(), NoMemory>
    requires count { length buckets.old ≡ length decls.now }
    requires empty { buckets.old ≡ replicate (length decls.now) [] }
    ensures { OnOk result (spec.AreBuckets decls.now buckets.new) }
{
    for at in 0..decls.len() {
        let bucket = bucket_of(decls.len(), name_of(&decls[at]));
        buckets[bucket].push(at)?;
    }
    Ok(())
}

impl Index {
    // The index of declarations.
    pub(crate) fn of(alloc: Global, decls: &[Decl]) -> Result<Index, NoMemory>
        ensures { IfOk result (λ index. spec.AreBuckets decls.now index.buckets) }
    {
        let mut buckets = empty_buckets(alloc, decls.len())?;
        fill(decls, buckets.items.as_mut_slice())?;
        Ok(Index { buckets })
    }

    // The indices of the declarations of a name's bucket.
    fn bucket(&self, name: &[u8]) -> &[usize]
        ensures { (decls : Items declarations.Decl) → spec.AreBuckets decls self.now.buckets
            → result.now ≡ spec.indices_where (spec.is_of (length decls) (spec.bucket_of (length decls) name.now)) 0
            decls }
    {
        let buckets = self.buckets.as_slice();
        if buckets.is_empty() {
            return &[];
        }
        buckets[bucket_of(buckets.len(), name)].as_slice()
    }

    // The indices of the declarations of which a path may pick something, rising.
    pub(crate) fn indices(&self, path: &[Bytes]) -> &[usize]
        ensures { (decls : Items declarations.Decl) → spec.AreBuckets decls self.now.buckets
            → result.now ≡ spec.indices_for decls path.now }
    {
        match path {
            [name, ..] => self.bucket(name.as_slice()),
            [] => &[],
        }
    }
}
