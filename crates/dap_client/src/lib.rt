//! A client of DAP 2.0: the body of a data reply is read as a message, and a reply is pulled over a link.
#![tactic(auto)]

mod array;
mod column;
mod cursor;
mod declaration;
mod dimension;
mod elements;
mod fault;
mod head;
mod kind;
mod length;
mod map;
mod message;
mod number;
mod opening;
mod pull;
mod read;
mod shape;
mod taking;

pub use fault::{ClientFault, PullEnd};
pub use message::{Column, Message};
pub use pull::pull_link;
pub use read::read_message;
