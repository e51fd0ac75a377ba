//! What is sent of declarations for a constraint.
ghost use Rattle.fm_base.specs.Answer.{Answers};
ghost use Rattle.fm_base.specs.Chain.{fault_as};
ghost use Rattle.dap_ce.specs.Asked.{asked_by};
ghost use Rattle.dap_model.specs.Projection.{projection_of};
ghost use Rattle.dap_project.specs.Sending.{text_and_parts};
ghost use Rattle.dap_reply.specs.declared.fault.DapFault.TheVariants as faults;
ghost use Rattle.dap_reply.specs.Body.{projected_of, text_asked};

use crate::fault::DapFault;
use dap_ce::read_constraint;
use dap_model::{Decl, Projected, Projection, Sent};
use dap_project::{project, project_text};
use fm_base::{Bytes, Fail, List, fault_as};
use std::alloc::Global;
use web_path::Target;

// What a constraint asks for, or its fault.
fn asked_by(alloc: Global, constraint: &[u8]) -> Result<Projection, Fail<DapFault>>
    ensures { Answers (fault_as faults.Constraint (asked_by constraint.now)) result }
{
    fault_as(read_constraint(alloc, constraint), DapFault::Constraint)
}

/// What is sent of declarations for a constraint, or the first fault.
#[tactic(auto, unfolding(crate::specs::Body::projected_of))]
pub fn projected_of(
    alloc: Global,
    decls: &[Decl],
    constraint: &[u8],
) -> Result<Projected, Fail<DapFault>>
    ensures { Answers (projected_of decls.now constraint.now) result }
{
    let asked = asked_by(alloc, constraint)?;
    fault_as(project(alloc, decls, &asked), DapFault::Projection)
}

// The structure text of what is sent of declarations under a label, and the parts that are sent, or the first fault.
fn text_sent(
    alloc: Global,
    label: &[u8],
    decls: &[Decl],
    asked: &Projection,
) -> Result<(Bytes, List<Sent>), Fail<DapFault>>
    ensures { Answers (fault_as faults.Projection (text_and_parts label.now (projection_of decls.now asked.now.clauses)))
        result }
{
    let sent = project_text(alloc, label, decls, asked);
    fault_as(sent, DapFault::Projection)
}

// The same for the constraint of a target, under its label.
#[tactic(auto, unfolding(crate::specs::Body::projected_of))]
pub(crate) fn text_asked(
    alloc: Global,
    target: &Target,
    decls: &[Decl],
) -> Result<(Bytes, List<Sent>), Fail<DapFault>>
    ensures { Answers (text_asked decls.now target.now) result }
{
    let asked = asked_by(alloc, target.constraint.as_slice())?;
    text_sent(alloc, target.label.as_slice(), decls, &asked)
}
