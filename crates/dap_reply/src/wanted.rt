//! What is to be done for an item of a connection.

use crate::fault::DapFault;
use web_path::Target;

/// A request that a collection is looked at for: what it asks for, whether the reply has its head alone, and whether
/// the connection ends after it.
#[derive(Drop)]
pub struct Dap {
    pub target: Target,
    pub head: bool,
    pub last: bool,
}

/// A refusal for which no collection is looked at, or a request that is wanted.
#[derive(Drop)]
pub enum Order {
    Refused {
        fault: DapFault,
        head: bool,
        last: bool,
    },
    Wanted(Dap),
}
