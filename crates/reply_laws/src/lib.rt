//! What a client can read of a data reply.
#![tactic(auto)]

pub mod replies;
