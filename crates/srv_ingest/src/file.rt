//! The file under a name.
ghost use Rattle.std.specs.Prelude.{◌≡◌, IfErr, IfOk, option_map};
ghost use Rattle.fm_base.specs.Answer.{Answers};
ghost use Rattle.fm_base.specs.declared.fail.Fail.TheVariants as fails;
ghost use Rattle.fm_model.specs.Load.{Fits};
ghost use Rattle.dev_traits.specs.Files.{KeepsLimit};
ghost use Rattle.srv_ingest.specs.Verdicts.{file_or_refusal, taken_back, verdict_of};

use dev_traits::{Found, Verdict};
use fm_base::{Arc, Fail};
use fm_load::load;
use fm_model::{LoadFault, Loaded, MAX_FILE_BYTES, Proto};
use std::alloc::Global;

// The code of a refusal for a file that is too long.
pub(crate) const TOO_LONG: u16 = 62;

// The end of a name that takes a file back.
const BACK: &[u8] = b".retract";

/// Why there is no file of the collection under a name.
#[derive(Drop)]
pub(crate) enum Refusal {
    /// There is no file any more.
    Absent,
    /// It has more bytes than a file may have.
    TooLong,
    /// What was wrong first.
    Fault(LoadFault),
}

impl Refusal {
    /// The verdict on the name.
    pub fn verdict(&self) -> Verdict
        ensures { result ≡ verdict_of self.now }
    {
        match self {
            Refusal::Absent => Verdict::Gone,
            Refusal::TooLong => Verdict::Refused(TOO_LONG),
            Refusal::Fault(fault) => Verdict::Refused(fault.code()),
        }
    }
}

// The same file, which may be shared.
fn shared(alloc: Global, file: Loaded) -> Result<Arc<Loaded>, Fail<Refusal>>
    ensures ok { IfOk result (λ shared. shared ≡ file) }
    ensures err { IfErr result (λ fail. fail ≡ fails.NoMemory) }
{
    match Arc::new(alloc, file) {
        Ok(file) => Ok(file),
        Err(_) => Err(Fail::NoMemory),
    }
}

/// The file under a name, or why there is none.
#[tactic(auto, unfolding(crate::specs::Verdicts::file_or_refusal))]
pub(crate) fn file_of(
    alloc: Global,
    name: &[u8],
    found: Found,
    proto: &Proto,
) -> Result<Arc<Loaded>, Fail<Refusal>>
    requires { KeepsLimit MAX_FILE_BYTES found }
    ensures exact { Answers (file_or_refusal proto.now name.now found) result }
    ensures fits { IfOk result (λ file. Fits file proto.now) }
{
    match found {
        Found::Absent => Err(Fail::Fault(Refusal::Absent)),
        Found::TooLong(_) => Err(Fail::Fault(Refusal::TooLong)),
        Found::Content(bytes) => match load(alloc, name, bytes, proto) {
            Ok(file) => shared(alloc, file),
            Err(Fail::NoMemory) => Err(Fail::NoMemory),
            Err(Fail::Fault(fault)) => Err(Fail::Fault(Refusal::Fault(fault))),
        },
    }
}

/// The name of the file that is taken back, where a name ends in `.retract`.
#[tactic(auto, unfolding(crate::specs::Verdicts::taken_back))]
pub(crate) fn taken_back(name: &[u8]) -> Option<&[u8]>
    ensures { option_map (λ back. back.now) result ≡ taken_back name.now }
{
    let (front, back) = name.split_at(name.len().saturating_sub(BACK.len()));
    if back == BACK { Some(front) } else { None }
}
