//! Whether the wires of each net join its FPGAs.
ghost use Rattle.std.specs.Prelude.{◌≡◌, ◌<◌, ◌≤◌, ◌+◌, ◌↔◌, length, All, Contains, IsTrue, IfOk, OnOk, MatchOption};
ghost use Rattle.tdm_problem.specs.declared.solution.WireUse.{WireUse};
ghost use Rattle.tdm_problem.specs.Board.{IsRowBelow};
ghost use Rattle.tdm_problem.specs.Routing.{wires_of, IsFor};
ghost use Rattle.tdm_problem.specs.Walk.{Joins};
ghost use Rattle.solution_eval.specs.Violations.{IsJoined, AllBelow, IsFirstWithout};

use crate::flood::{Step, leads_to_all};
use crate::steps::list_steps;
use std::alloc::{AllocError, Global};
use tdm_problem::{Problem, Solution, WireUse};

/// What the nets of a problem are judged in, one after another: a mark for each FPGA, the FPGAs that bear the
/// mark of the net at hand, and the steps along its wires.
#[derive(Drop)]
struct Workspace {
    marks: Vec<u32>,
    queue: Vec<u32>,
    steps: Vec<Step>,
}

/// The first net whose wires do not join its FPGAs. The only error is want of memory.
pub(crate) fn first_not_joined(
    alloc: Global,
    problem: &Problem,
    solution: &Solution,
) -> Result<Option<u32>, AllocError>
    requires { IsFor problem.now solution.now }
    ensures { IfOk result (λ found. MatchOption found
        (AllBelow (IsJoined problem.now solution.now) (length problem.now.nets))
        (IsFirstWithout (IsJoined problem.now solution.now) (length problem.now.nets))) }
{
    let mut workspace = Workspace {
        marks: vec![in alloc; 0u32; problem.fpgas() as usize]?,
        queue: Vec::new(alloc),
        steps: Vec::new(alloc),
    };
    for n in 0..problem.nets() {
        if !is_joined(
            &mut workspace,
            problem,
            solution.uses(n),
            problem.net(n),
            n + 1,
        )? {
            return Ok(Some(n));
        }
    }
    Ok(None)
}

/// Whether the wires of these uses join the FPGAs of a net. The mark is a new one, above all that the FPGAs
/// bear.
fn is_joined(
    workspace: &mut Workspace,
    problem: &Problem,
    uses: &[WireUse],
    fpgas: &[u32],
    mark: u32,
) -> Result<bool, AllocError>
    requires there { All (λ (u : WireUse). u.wire < length problem.now.wires) uses.now }
    requires net { IsRowBelow problem.now.fpgas fpgas.now }
    requires size { length workspace.old.marks.items ≡ problem.now.fpgas }
    requires new { All (λ m. m < mark) workspace.old.marks.items }
    ensures joined { IfOk result (λ joined. IsTrue joined
        ↔ Joins problem.now (Contains (wires_of uses.now)) fpgas.now) }
    ensures size { OnOk result (length workspace.new.marks.items ≡ problem.now.fpgas) }
    ensures highest { OnOk result (All (λ m. m ≤ mark) workspace.new.marks.items) }
{
    list_steps(&mut workspace.steps, problem, uses)?;
    leads_to_all(
        &workspace.steps,
        fpgas,
        mark,
        &mut workspace.marks,
        &mut workspace.queue,
    )
}
