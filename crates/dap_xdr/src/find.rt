//! The array that is a part of a declaration.
ghost use Rattle.std.specs.Prelude.{◌≡◌, IsSomeAnd, Some};
ghost use Rattle.fm_model.specs.Site.{IsPrototype};
ghost use Rattle.fm_dataset.specs.Rows.{AreRows};
ghost use Rattle.dap_xdr.specs.Content.{array_in, FitsArray};
ghost use Rattle.dap_xdr.specs.Datasets.{content_of};
ghost use Rattle.dap_xdr.specs.Portion.{IsPortion};

use dap_model::{Array, Decl, Sent};
use dap_slab::part_of;
use fm_dataset::Dataset;

/// The array of what is sent. The caller has a part of the declarations with slabs that fit it.
#[tactic(auto, unfolding(crate::specs::Content::array_in))]
pub fn array_in<'a>(decls: &'a [Decl], sent: &Sent) -> &'a Array
    requires { IsSomeAnd (array_in decls.now sent.now.decl sent.now.part) (FitsArray sent.now) }
    ensures { array_in decls.now sent.now.decl sent.now.part ≡ Some result.now }
{
    let decl = &decls[sent.decl as usize];
    let Some(array) = part_of(decl, sent.part as usize) else {
        unreachable!()
    };
    array
}

/// The array of what is sent of a dataset. The caller has a part of the dataset with slabs that fit it.
pub fn array_of<'a>(set: &'a Dataset, sent: &Sent) -> &'a Array
    requires part { IsSomeAnd (array_in (content_of set.now).decls sent.now.decl sent.now.part) (FitsArray sent.now) }
    requires prototype { IsPrototype set.now.proto }
    requires rows { AreRows set.now.proto set.now.rows }
    ensures { IsPortion (record { shown = set.now; sent = sent.now; array = result.now }) }
{
    array_in(set.decls().as_slice(), sent)
}
