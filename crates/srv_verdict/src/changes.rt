//! The three changes: a file comes, the file of a name goes, the runs below a cutoff go.
ghost use Rattle.std.specs.Prelude.{◌≡◌};

use crate::change::Change;
use dev_traits::{Expiry, Verdict};
use fm_base::{Arc, Fail, NoMemory};
use fm_edition::Edition;
use fm_model::{Loaded, Op};
use pub_look::Query;
use pub_snap::{Desk, Name, Share};
use std::alloc::Global;
use std::sync::Wait;

/// A file comes to the collection. Nothing is to be done where there is no room for it.
#[derive(Drop)]
pub struct Putting {
    pub file: Arc<Loaded>,
}

impl Query for Putting {
    type Out = bool;

    ghost use Rattle.std.specs.Prelude.{◌≡◌, is_some};
    ghost use Rattle.fm_model.specs.declared.op.Op.TheVariants.{Put};
    ghost use Rattle.fm_model.specs.Collection.{full_at};

    ghost says = { λ putting held _ out. out ≡ is_some (full_at held.files (Put putting.file)) };

    fn answer(&self, _alloc: Global, edition: &Edition, _revision: u64) -> Result<bool, NoMemory> {
        let put = Op::Put(self.file.share()?);
        Ok(edition.full_at(&put).is_some())
    }
}

impl Change for Putting {
    type Verdict = Verdict;

    ghost use Rattle.std.specs.Prelude.{◌≡◌, ◌⊎◌, Ok as Good};
    ghost use Rattle.dev_traits.specs.declared.inbox.Verdict.TheVariants as verdicts;
    ghost use Rattle.fm_model.specs.declared.op.Op.TheVariants.{Put};
    ghost use Rattle.fm_model.specs.Load.{Fits};
    ghost use Rattle.srv_verdict.specs.Attempts.{looked_number, published_number};
    ghost use Rattle.srv_verdict.specs.Verdicts.{IsVerdictOnFile};

    ghost operation = { λ putting. Put putting.file };

    ghost fits = { λ putting proto. Fits putting.file proto };

    ghost judges = { λ putting ops verdict. (verdict ≡ verdicts.Short)
        ⊎ IsVerdictOnFile ops (Good putting.file) verdict };

    ghost number_of = { published_number };

    ghost look_of = { looked_number };

    fn ask_desk<N: Name, R: Wait>(
        &self,
        rt: &R,
        alloc: Global,
        desk: &mut Desk<N>,
        share: &mut Share<N>,
    ) -> Result<bool, NoMemory> {
        let file = self.file.share()?;
        match desk.publish(alloc, rt, share, Op::Put(file)) {
            Ok(_) => Ok(true),
            Err(Fail::NoMemory) => Err(NoMemory),
            Err(Fail::Fault(_)) => Ok(false),
        }
    }

    fn when_done(&self, number: u64) -> Verdict {
        Verdict::Published(number)
    }

    fn when_needless(&self, count: u64) -> Verdict {
        Verdict::Full(count)
    }

    fn when_short(&self) -> Verdict {
        Verdict::Short
    }
}

/// The file of a name goes. Nothing is to be done where none is held.
#[derive(Clone, Copy)]
pub struct Retracting<'a> {
    pub name: &'a [u8],
}

impl<'a> Query for Retracting<'a> {
    type Out = bool;

    ghost use Rattle.std.specs.Prelude.{◌≡◌, not};
    ghost use Rattle.fm_model.specs.Collection.{holds};

    ghost says = { λ retracting held _ out. out ≡ not (holds held.files retracting.name.now) };

    fn answer(&self, _alloc: Global, edition: &Edition, _revision: u64) -> Result<bool, NoMemory> {
        Ok(!edition.holds(self.name))
    }
}

impl<'a> Change for Retracting<'a> {
    type Verdict = Verdict;

    ghost use Rattle.std.specs.Prelude.{◌≡◌, ◌⊎◌};
    ghost use Rattle.dev_traits.specs.declared.inbox.Verdict.TheVariants as verdicts;
    ghost use Rattle.fm_model.specs.declared.op.Op.TheVariants.{Retract};
    ghost use Rattle.srv_verdict.specs.Attempts.{looked_number, published_number};
    ghost use Rattle.srv_verdict.specs.Verdicts.{IsVerdictOnRetraction};

    ghost operation = { λ retracting. Retract retracting.name.now };

    ghost fits = { λ _ _. Unit {0} };

    ghost judges = { λ retracting ops verdict. (verdict ≡ verdicts.Short)
        ⊎ IsVerdictOnRetraction ops retracting.name.now verdict };

    ghost number_of = { published_number };

    ghost look_of = { looked_number };

    fn ask_desk<N: Name, R: Wait>(
        &self,
        rt: &R,
        alloc: Global,
        desk: &mut Desk<N>,
        share: &mut Share<N>,
    ) -> Result<bool, NoMemory> {
        match desk.retract(alloc, rt, share, self.name) {
            Ok(Some(_)) => Ok(true),
            Ok(None) => Ok(false),
            Err(NoMemory) => Err(NoMemory),
        }
    }

    fn when_done(&self, number: u64) -> Verdict {
        Verdict::Published(number)
    }

    fn when_needless(&self, count: u64) -> Verdict {
        Verdict::NotHeld(count)
    }

    fn when_short(&self) -> Verdict {
        Verdict::Short
    }
}

/// The runs below a cutoff go, in seconds from the collection's epoch. Nothing is to be done where none is held.
#[derive(Clone, Copy)]
pub struct Expiring {
    pub cutoff: i64,
}

impl Query for Expiring {
    type Out = bool;

    ghost use Rattle.std.specs.Prelude.{◌≡◌, not};
    ghost use Rattle.fm_model.specs.Collection.{holds_older};

    ghost says = { λ expiring held _ out. out ≡ not (holds_older held.files expiring.cutoff) };

    fn answer(&self, _alloc: Global, edition: &Edition, _revision: u64) -> Result<bool, NoMemory> {
        Ok(!edition.older_than(self.cutoff))
    }
}

impl Change for Expiring {
    type Verdict = Expiry;

    ghost use Rattle.fm_model.specs.declared.op.Op.TheVariants.{Expire};
    ghost use Rattle.srv_verdict.specs.Attempts.{expired_number, idle_number};
    ghost use Rattle.srv_verdict.specs.Verdicts.{IsExpiry};

    ghost operation = { λ expiring. Expire expiring.cutoff };

    ghost fits = { λ _ _. Unit {0} };

    ghost judges = { λ expiring ops verdict. IsExpiry ops expiring.cutoff verdict };

    ghost number_of = { expired_number };

    ghost look_of = { idle_number };

    fn ask_desk<N: Name, R: Wait>(
        &self,
        rt: &R,
        alloc: Global,
        desk: &mut Desk<N>,
        share: &mut Share<N>,
    ) -> Result<bool, NoMemory> {
        match desk.expire(alloc, rt, share, self.cutoff) {
            Ok(Some(_)) => Ok(true),
            Ok(None) => Ok(false),
            Err(NoMemory) => Err(NoMemory),
        }
    }

    fn when_done(&self, number: u64) -> Expiry {
        Expiry::Expired(number)
    }

    fn when_needless(&self, count: u64) -> Expiry {
        Expiry::Idle(count)
    }

    fn when_short(&self) -> Expiry {
        Expiry::Short
    }
}
