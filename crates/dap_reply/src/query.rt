//! A request as a question about a collection.
ghost use Rattle.std.specs.Prelude.{◌≡◌};
ghost use Rattle.dap_reply.specs.Planned.{planned};

use crate::replying::plan;
use crate::wanted::Dap;
use dap_plan::Plan;
use fm_base::NoMemory;
use fm_edition::Edition;
use pub_look::Query;
use std::alloc::Global;

impl Query for Dap {
    type Out = Plan;

    ghost says = { λ dap held revision parts. parts ≡ planned held revision dap };

    fn answer(&self, alloc: Global, edition: &Edition, revision: u64) -> Result<Plan, NoMemory> {
        plan(alloc, edition, revision, self)
    }
}
