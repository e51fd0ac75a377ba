//! Looks at a collection: a query is answered over the edition of one moment. `Plain` publishes and looks without
//! threads.
#![tactic(auto)]

mod look;
mod plain;
mod query;

pub use look::Look;
pub use plain::Plain;
pub use query::Query;
