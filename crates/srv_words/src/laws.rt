//! What a reader believes of the words, as the contract of a call that does nothing.
ghost use Rattle.std.specs.Prelude.{◌≡◌, ◌∷◌, ◌++◌, true, ℕ, List, None, Some, is_some};
ghost use Rattle.srv_words.specs.Asked.{asked_of};
ghost use Rattle.srv_words.specs.Collections.{is_path, parts_of};
ghost use Rattle.srv_words.specs.Jobs.{job_of};
ghost use Rattle.srv_words.specs.Values.{is_collection_name};

/// Words that ask for a text are no job, so a program that shows it does no job wrong.
#[tactic(auto, using(crate::proofs::AskedLemmas::asked_none))]
pub fn words_that_ask_for_a_text_are_no_job()
    ensures { (words : List (List ℕ)) → is_some (asked_of words) ≡ true → job_of words ≡ None }
{}

/// A word describes a collection of `many` exactly where it is a name, `=`, a path, `=` and a path.
#[tactic(auto, using(crate::proofs::PartLemmas::parts))]
pub fn collections_are_names_and_two_paths()
    ensures read { (name proto inbox : List ℕ) → is_collection_name name ≡ true → is_path proto ≡ true
        → is_path inbox ≡ true → parts_of (name ++ 61 ∷ (proto ++ 61 ∷ inbox)) ≡ Some (name, proto, inbox) }
    ensures written { (word name proto inbox : List ℕ) → parts_of word ≡ Some (name, proto, inbox)
        → word ≡ name ++ 61 ∷ (proto ++ 61 ∷ inbox) }
{}
