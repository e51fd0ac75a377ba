//! The commands `serve` and `many` over any devices.
#![tactic(auto)]

mod prototypes;
mod serving;
mod several;
mod telling;

pub use serving::serve;
pub use several::many;
