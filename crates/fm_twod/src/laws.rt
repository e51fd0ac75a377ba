//! What a reader believes of the definitions, each as the contract of a call that does nothing.
ghost use Rattle.std.specs.Prelude.{◌≡◌, List};
ghost use Rattle.fm_model.specs.declared.loaded.Loaded.{Loaded};
ghost use Rattle.fm_model.specs.declared.proto.Proto.{Proto};
ghost use Rattle.fm_edition.specs.Held.{Held};
ghost use Rattle.fm_twod.specs.declared.asked.TwodAsk.{TwodAsk};
ghost use Rattle.fm_twod.specs.Asked.{twod_of};
ghost use Rattle.fm_twod.specs.Grid.{as_bytes, grid_by_run_and_offset, twod_body_of};
ghost use Rattle.fm_twod.specs.Laid.{content_of, laid_of};

/// A collection as it is laid out has the declarations and the values of its two-dimensional view: at each pair of
/// indices the value of the cell of their run and offset, or what stands where there is none.
pub fn a_collection_as_it_is_laid_out_shows_its_view()
    ensures { (proto : Proto) (files : List Loaded) →
        content_of (laid_of proto files) ≡ grid_by_run_and_offset proto files }
{}

/// An answer has the bytes of the two-dimensional view of the collection for which the edition stands, or the first
/// fault.
pub fn an_answer_has_the_bytes_of_the_view()
    ensures { (held : Held) (ask : TwodAsk) → as_bytes (twod_of held ask)
        ≡ twod_body_of held.proto held.files ask.with_values ask.constraint }
{}
