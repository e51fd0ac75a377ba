//! What can be wrong with a request.
ghost use Rattle.std.specs.Prelude.{◌≡◌};
ghost use Rattle.dap_reply.specs.Fault.{fault_code, fault_status};

use crate::status::Status;
use dap_model::{CeFault, ProjectFault};
use web_path::PathFault;

/// The first fault of a request.
#[derive(Drop)]
pub enum DapFault {
    /// The constraint by itself.
    Constraint(CeFault),
    /// The constraint for the dataset.
    Projection(ProjectFault),
    /// The target.
    Path(PathFault),
    /// The body of the reply would have more bytes than the limit.
    TooLarge { len: u128, limit: u64 },
    /// The method is neither GET nor HEAD.
    Method,
    /// The request has a body.
    BodyNotTaken,
    /// The view has no rows.
    NoRows,
    /// The bytes that end as a head does aren't one.
    BadHead,
    /// The head doesn't end in its first 16,384 bytes.
    HeadTooLong,
}

impl DapFault {
    /// The number by which the fault is reported.
    #[tactic(auto, unfolding(crate::specs::Fault::fault_code))]
    pub fn code(&self) -> u16
        ensures { result ≡ fault_code self.now }
    {
        match self {
            DapFault::Constraint(fault) => fault.code(),
            DapFault::Projection(fault) => fault.code(),
            DapFault::Path(fault) => fault.code(),
            DapFault::TooLarge { .. } => 34,
            DapFault::Method => 35,
            DapFault::BodyNotTaken => 36,
            DapFault::NoRows => 37,
            DapFault::BadHead => 38,
            DapFault::HeadTooLong => 39,
        }
    }

    /// The status of a reply that refuses.
    #[tactic(auto, unfolding(crate::specs::Fault::fault_status))]
    pub fn status(&self) -> Status
        ensures { result ≡ fault_status self.now }
    {
        match self {
            DapFault::Path(PathFault::NoSuchDataset | PathFault::NoSuchService)
            | DapFault::NoRows => Status::NotFound,
            DapFault::TooLarge { .. } => Status::TooLarge,
            DapFault::Method => Status::NotAllowed,
            DapFault::HeadTooLong => Status::HeadTooLarge,
            DapFault::Constraint(_)
            | DapFault::Projection(_)
            | DapFault::Path(PathFault::BadEscape(_))
            | DapFault::BodyNotTaken
            | DapFault::BadHead => Status::BadRequest,
        }
    }
}
