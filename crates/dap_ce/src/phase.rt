//! Where the reader of a constraint stands in a clause.
ghost use Rattle.std.specs.Prelude.{◌≡◌, ◌<◌, ◌↔◌, Some, length, IfSome, IsSome};
ghost use Rattle.dap_model.specs.Constraint.{slab_of};
ghost use Rattle.dap_ce.specs.Phases.{and_number, numbers_of};

use dap_model::Slab;

// The numbers of a slab before the one that is read next.
#[derive(Clone, Copy)]
pub(crate) enum Numbers {
    Zero,
    One(u64),
    Two(u64, u64),
}

// Where reading stands: at the first byte of a name; in the name that begins at an offset; at the first digit of a
// number; in a number, with how many digits it has and its value; or behind a slab.
#[derive(Clone, Copy)]
pub(crate) enum Phase {
    BeforeName,
    InName(usize),
    BeforeNumber(Numbers),
    InNumber(Numbers, u64, u64),
    AfterSlab,
}

// The slab that these numbers and one more give.
#[tactic(auto, unfolding(dap_model::specs::Constraint::slab_of))]
pub(crate) fn slab_with(numbers: Numbers, last: u64) -> Slab
    ensures { slab_of (and_number (numbers_of numbers) last) ≡ Some result }
{
    match numbers {
        Numbers::Zero => Slab {
            start: last,
            stride: 1,
            stop: last,
        },
        Numbers::One(start) => Slab {
            start,
            stride: 1,
            stop: last,
        },
        Numbers::Two(start, stride) => Slab {
            start,
            stride,
            stop: last,
        },
    }
}

// The numbers of a slab with one more, where a number may follow.
pub(crate) fn next_number(numbers: Numbers, last: u64) -> Option<Numbers>
    ensures some { IfSome result (λ next. numbers_of next ≡ and_number (numbers_of numbers) last) }
    ensures few { IsSome result ↔ (length (numbers_of numbers) < 2) }
{
    match numbers {
        Numbers::Zero => Some(Numbers::One(last)),
        Numbers::One(first) => Some(Numbers::Two(first, last)),
        Numbers::Two(_, _) => None,
    }
}
