//! Replies: what a request is answered with, over the collection of one moment.
#![tactic(auto)]

mod asked;
mod body;
pub mod examples;
mod fault;
mod head;
pub mod laws;
mod message;
mod ordering;
mod projecting;
mod query;
mod replying;
mod served;
mod status;
mod wanted;

pub use asked::{MAX_BODY, dataset_asked};
pub use body::{Answer, Body, BodyKind};
pub use dap_plan::Plan;
pub use fault::DapFault;
pub use head::Head;
pub use ordering::order;
pub use projecting::projected_of;
pub use replying::{plan, refusal};
pub use served::{Mark, Stop};
pub use status::Status;
pub use wanted::{Dap, Order};
