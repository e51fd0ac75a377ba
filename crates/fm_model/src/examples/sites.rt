//! Sites and prototypes that a collection may have.

ghost use Rattle.std.specs.Prelude.{[], codes, negsuc, pos, replicate};
ghost use Rattle.fm_model.specs.Example.{site};
ghost use Rattle.fm_model.specs.ExampleFiles.{proto_a};
ghost use Rattle.fm_model.specs.Site.{IsPrototype, IsSite};

/// A site's name has 1 to 64 bytes, each a letter, a digit, `_` or `-`.
pub fn a_name_of_a_site_is_short_and_plain()
    ensures site { IsSite site }
    ensures longest { IsSite (record site { name = replicate 64 97 }) }
    ensures longer { ¬ IsSite (record site { name = replicate 65 97 }) }
    ensures empty { ¬ IsSite (record site { name = [] }) }
    ensures point { ¬ IsSite (record site { name = codes "gfs.1" }) }
{}

/// A site's epoch lies from 0100-01-01T00:00:00Z to 9900-12-31T23:59:59Z.
pub fn an_epoch_of_a_site_lies_in_the_years_100_to_9900()
    ensures first { IsSite (record site { epoch = negsuc 59011459199 }) }
    ensures before { ¬ IsSite (record site { epoch = negsuc 59011459200 }) }
    ensures last { IsSite (record site { epoch = pos 250278163199 }) }
    ensures after { ¬ IsSite (record site { epoch = pos 250278163200 }) }
{}

/// A whole file at such a site is a prototype that a collection may have.
pub fn a_file_at_a_site_is_a_prototype_for_a_collection()
    ensures { IsPrototype proto_a }
{}
