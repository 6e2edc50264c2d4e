//! Boards from three numbers.
ghost use Rattle.std.specs.Prelude.{◌≡◌, ◌+◌, ◌<◌, ◌≤◌, ◌%◌, [], ◌++◌, length, map, OnOk, IfOk};
ghost use Rattle.std.specs.List.{range_with_len};
ghost use Rattle.tdm_problem.specs.Board.{IsBoard};
ghost use Rattle.tdm_problem.specs.Legal.{AllConnectable};
ghost use Rattle.tdm_problem.specs.Limits.{most_nets, most_groups};
ghost use Rattle.board_generator.specs.Generated.{AreSizes, wire_over, net_of, group_of, generated};

use std::alloc::{AllocError, Global};
use tdm_problem::{Problem, ProblemDraft, Wire};

/// A board of `f` FPGAs, from 2 to 4,096, with `n` nets, from 1 to 1,048,576, and `g` groups, up to
/// 1,048,576. The same numbers always give the same board.
///
/// The FPGAs stand in a ring. Wire `i` joins FPGA `i` to the next one, and wire `f + i` joins it to the one
/// half around the ring, `f / 2` FPGAs on; so all nets can be joined. Net `i` has the FPGAs `7i`, `11i + 3`
/// and `13i + 5` modulo `f`, its source first, and group `j` the nets `j`, `3j + 1` and `5j + 2` modulo `n`;
/// in both a number that comes again is left out.
///
/// The only error is want of memory.
pub fn gen_problem(alloc: Global, f: u32, n: u32, g: u32) -> Result<Problem, AllocError>
    requires { AreSizes f n g }
    ensures same { IfOk result (λ problem. problem ≡ generated f n g) }
    ensures joined { IfOk result (λ problem. AllConnectable problem) }
    ensures board { IfOk result (λ problem. IsBoard problem) }
{
    let mut draft = ProblemDraft::new(alloc, f);
    push_wires(&mut draft, f, 1)?;
    push_wires(&mut draft, f, f / 2)?;
    push_nets(&mut draft, f, n)?;
    push_groups(&mut draft, n, g)?;
    Ok(draft.into_problem())
}

/// Adds a wire from each FPGA to the one so many steps on in the ring.
fn push_wires(draft: &mut ProblemDraft, fpgas: u32, step: u32) -> Result<(), AllocError>
    requires fpgas { draft.old.fpgas ≡ fpgas }
    requires few { fpgas ≤ 4096 }
    requires some { 1 ≤ step }
    requires within { step < fpgas }
    requires room { length draft.old.wires ≤ 4096 }
    ensures { OnOk result (draft.new ≡ record draft.old {
      wires = draft.old.wires ++ map (wire_over fpgas step) (range_with_len 0 fpgas);
    }) }
{
    for i in 0..fpgas {
        draft.push_wire(Wire {
            a: i,
            b: (i + step) % fpgas,
        })?;
    }
    Ok(())
}

/// Adds so many nets to a board without nets.
fn push_nets(draft: &mut ProblemDraft, fpgas: u32, nets: u32) -> Result<(), AllocError>
    requires fpgas { draft.old.fpgas ≡ fpgas }
    requires some { 2 ≤ fpgas }
    requires few { nets ≤ most_nets }
    requires none { draft.old.nets ≡ [] }
    ensures { OnOk result (draft.new ≡ record draft.old {
      nets =
          map (net_of fpgas) (range_with_len 0 nets);
    }) }
{
    for i in 0..nets {
        draft.push_net(&[7 * i % fpgas, (11 * i + 3) % fpgas, (13 * i + 5) % fpgas])?;
    }
    Ok(())
}

/// Adds so many groups to a board without groups.
fn push_groups(draft: &mut ProblemDraft, nets: u32, groups: u32) -> Result<(), AllocError>
    requires nets { length draft.old.nets ≡ nets }
    requires some { 1 ≤ nets }
    requires few { groups ≤ most_groups }
    requires none { draft.old.groups ≡ [] }
    ensures { OnOk result (draft.new ≡ record draft.old {
      groups =
          map (group_of nets) (range_with_len 0 groups);
    }) }
{
    for j in 0..groups {
        draft.push_group(&[j % nets, (3 * j + 1) % nets, (5 * j + 2) % nets])?;
    }
    Ok(())
}
