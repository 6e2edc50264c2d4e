//! The steps along the wires of a net.
ghost use Rattle.std.specs.Prelude.{◌<◌, length, All, OnOk};
ghost use Rattle.std.specs.List.Sorted.{IsNonDecreasingBy, IsPermutation};
ghost use Rattle.tdm_problem.specs.declared.solution.WireUse.{WireUse};
ghost use Rattle.tdm_problem.specs.Routing.{wires_of};
ghost use Rattle.solution_eval.specs.declared.flood.Step.{Step};
ghost use Rattle.solution_eval.specs.Steps.{AreSteps};

use crate::flood::Step;
use std::alloc::AllocError;
use tdm_problem::{Problem, WireUse};

/// Lists the steps along the wires of a net, both ways, in the order of the FPGAs that they leave.
pub(crate) fn list_steps(
    steps: &mut Vec<Step>,
    problem: &Problem,
    uses: &[WireUse],
) -> Result<(), AllocError>
    requires { All (λ (u : WireUse). u.wire < length problem.now.wires) uses.now }
    ensures steps { OnOk result (AreSteps problem.now (wires_of uses.now) steps.new.items) }
    ensures sorted { OnOk result (IsNonDecreasingBy (λ (s : Step). s.from) steps.new.items) }
{
    collect_steps(steps, problem, uses)?;
    sort_steps(steps);
    Ok(())
}

/// Lists the steps along the wires, both ways, wire by wire.
fn collect_steps(
    steps: &mut Vec<Step>,
    problem: &Problem,
    uses: &[WireUse],
) -> Result<(), AllocError>
    requires { All (λ (u : WireUse). u.wire < length problem.now.wires) uses.now }
    ensures { OnOk result (AreSteps problem.now (wires_of uses.now) steps.new.items) }
{
    steps.clear();
    for wire_use in uses {
        let wire = problem.wire(wire_use.wire);
        steps.push(Step {
            from: wire.a,
            to: wire.b,
        })?;
        steps.push(Step {
            from: wire.b,
            to: wire.a,
        })?;
    }
    Ok(())
}

/// Puts the steps in the order of the FPGAs that they leave.
fn sort_steps(steps: &mut [Step])
    ensures permutation { IsPermutation steps.old steps.new }
    ensures sorted { IsNonDecreasingBy (λ (s : Step). s.from) steps.new }
{
    steps.sort_unstable_by_key(|step| step.from);
}
