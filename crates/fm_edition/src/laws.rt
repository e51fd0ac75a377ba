//! What a reader believes of the definitions, each as the contract of a call that does nothing.
ghost use Rattle.std.specs.Prelude.{◌≡◌, [], ◌∷◌, ◌++◌, List, None};
ghost use Rattle.fm_model.specs.declared.loaded.Loaded.{Loaded as File};
ghost use Rattle.fm_model.specs.declared.op.Op.{Op as Operation};
ghost use Rattle.fm_model.specs.declared.proto.Proto.{Proto as Prototype};
ghost use Rattle.fm_model.specs.Collection.{coll};
ghost use Rattle.fm_model.specs.Site.{IsPrototype};
ghost use Rattle.fm_edition.specs.Held.{Held, held_after, IsEdition};
ghost use Rattle.fm_edition.specs.Log.{held_of, CanFollow, IsLog};

/// No files are an edition of each prototype, and what an operation leaves of an edition is one, where it can be done.
pub fn editions_stay_editions()
    ensures none { (proto : Prototype) → IsPrototype proto
        → IsEdition (record { proto = proto; files = [] }) }
    ensures after { (held : Held) (op : Operation) → IsEdition held
        → CanFollow held.proto held.files op → IsEdition (held_after held op) }
{}

/// What a log leaves is an edition.
pub fn logs_leave_editions()
    ensures { (proto : Prototype) (ops : List Operation) → IsPrototype proto → IsLog proto ops
        → IsEdition (held_of proto ops) }
{}

/// No operations are a log. A log grows by an operation that can be done to what it leaves; its front is a log, and
/// each of its operations can be done to what those before it leave.
pub fn logs_grow_by_what_can_follow()
    ensures none { (proto : Prototype) → IsLog proto [] }
    ensures more { (proto : Prototype) (ops : List Operation) (op : Operation) → IsLog proto ops
        → CanFollow proto (coll ops) op → IsLog proto (ops ++ op ∷ []) }
    ensures front { (proto : Prototype) (ops more : List Operation) → IsLog proto (ops ++ more)
        → IsLog proto ops }
    ensures each { (proto : Prototype) (before after : List Operation) (op : Operation) →
        IsLog proto (before ++ op ∷ after) → CanFollow proto (coll before) op }
{}
