//! What a reader believes of a publication, each as the contract of a call that does nothing.
ghost use Rattle.std.specs.Prelude.{◌≡◌, ℕ, Bool, List};
ghost use mathlib.Core.Option.{some};
ghost use lib.ListN.{get_elem?};
ghost use Rattle.logbook.specs.Pages.{Book};
ghost use Rattle.fm_model.specs.declared.op.Op.{Op};
ghost use Rattle.fm_model.specs.declared.proto.Proto.{Proto};
ghost use Rattle.fm_model.specs.Collection.{coll};
ghost use Rattle.fm_model.specs.Site.{IsPrototype};
ghost use Rattle.fm_edition.specs.Log.{CanFollow};
ghost use Rattle.pub_pass.specs.declared.rule.Known.{Known};
ghost use Rattle.pub_snap.specs.Rule.{IsKept, Publication};
ghost use Rattle.pub_snap.specs.Steps.{caught_up, entered, opened, published, receipted, with_learnt, with_seat};

/// What is opened keeps the rule, and so does each step: making a pass, entering for a look or not, publishing an
/// operation that can follow, having the other copy catch up, making a receipt, and learning a list that a receipt
/// says.
pub fn each_step_keeps_the_rule()
    ensures opening { (book : Book) (proto : Proto) → IsPrototype proto → IsKept book proto (opened book proto) }
    ensures coming { (book : Book) (proto : Proto) (now : Publication) → IsKept book proto now
        → IsKept book proto (with_seat now) }
    ensures entering { (book : Book) (proto : Proto) (now : Publication) (seat : ℕ) (before : Known) (looking : Bool)
        → IsKept book proto now → get_elem? now.seats seat ≡ some before
        → IsKept book proto (entered now seat before looking) }
    ensures publishing { (book : Book) (proto : Proto) (now : Publication) (seat : ℕ) (op : Op)
        → IsKept book proto now → CanFollow proto (coll now.log) op
        → IsKept book proto (published book proto now seat op) }
    ensures catching_up { (book : Book) (proto : Proto) (now : Publication) → IsKept book proto now
        → IsKept book proto (caught_up now) }
    ensures telling { (book : Book) (proto : Proto) (now : Publication) → IsKept book proto now
        → IsKept book proto (receipted now) }
    ensures learning { (book : Book) (proto : Proto) (now : Publication) (index other : ℕ) (own told : List Op)
        → IsKept book proto now → get_elem? now.learnt index ≡ some own → get_elem? now.learnt other ≡ some told
        → IsKept book proto (with_learnt now index own told) }
{}
