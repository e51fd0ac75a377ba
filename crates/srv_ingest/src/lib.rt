//! Files that arrive come to a collection, and runs that get too old go: each name and each moment gets its verdict.
#![tactic(auto)]

mod expire;
mod file;
mod ingest;
mod lines;
mod moment;
mod report;
mod turn;

pub use expire::expire_all;
pub use ingest::ingest_all;
pub use report::{ExpireReport, IngestEnd, IngestReport};
