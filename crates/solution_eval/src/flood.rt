//! Which FPGAs the wires of a net lead to, found breadth first.
ghost use Rattle.std.specs.Prelude.{◌≡◌, ℕ, ◌<◌, ◌≤◌, ◌==◌, [], ◌∷◌, ◌++◌, length, filter, slice_index, slice_set, All, Contains, IsTrue, IfOk, OnOk, ◌↔◌, if◌then◌else◌};
ghost use Rattle.std.specs.List.{AllWithin};
ghost use Rattle.std.specs.List.Sorted.{IsNonDecreasingBy};
ghost use Rattle.solution_eval.specs.declared.flood.Step.{Step};
ghost use Rattle.solution_eval.specs.Flood.{HasPath, ListsMarked, Reaches};

use std::alloc::AllocError;

/// One way along a wire: from one of its FPGAs to the other.
#[derive(Clone, Copy)]
pub(crate) struct Step {
    pub from: u32,
    pub to: u32,
}

/// How many steps leave FPGAs below a limit, where all stand in the order of the FPGAs that they leave.
fn steps_below(steps: &[Step], limit: u64) -> usize
    requires { IsNonDecreasingBy (λ (s : Step). s.from) steps.now }
    ensures within { result ≤ length steps.now }
    ensures below { AllWithin (λ (s : Step). s.from < limit) steps.now 0 result }
    ensures above { AllWithin (λ (s : Step). limit ≤ s.from) steps.now result (length steps.now) }
{
    steps.partition_point(|step| u64::from(step.from) < limit)
}

/// The steps that leave an FPGA, where all stand in the order of the FPGAs that they leave.
fn steps_from(steps: &[Step], fpga: u32) -> &[Step]
    requires { IsNonDecreasingBy (λ (s : Step). s.from) steps.now }
    ensures { result.now ≡ filter (λ s. s.from == fpga) steps.now }
{
    let first = steps_below(steps, u64::from(fpga));
    let after = steps_below(steps, u64::from(fpga) + 1);
    &steps[first..after]
}

/// Marks an FPGA and puts it behind the queue, if it does not bear the mark yet.
fn reach(fpga: u32, mark: u32, marks: &mut [u32], queue: &mut Vec<u32>) -> Result<(), AllocError>
    requires { fpga < length marks.old }
    ensures marks { OnOk result (marks.new ≡ slice_set marks.old fpga mark) }
    ensures queue { OnOk result (queue.new.items
        ≡ (if slice_index marks.old fpga == mark then queue.old.items else queue.old.items ++ fpga ∷ [])) }
{
    if marks[fpga as usize] != mark {
        queue.push(fpga)?;
        marks[fpga as usize] = mark;
    }
    Ok(())
}

/// Puts one FPGA alone into the queue, under a new mark, above all that are borne.
fn start(source: u32, mark: u32, marks: &mut [u32], queue: &mut Vec<u32>) -> Result<(), AllocError>
    requires there { source < length marks.old }
    requires new { All (λ m. m < mark) marks.old }
    ensures lists { OnOk result (ListsMarked mark marks.new queue.new.items) }
    ensures size { OnOk result (length marks.new ≡ length marks.old) }
    ensures one { OnOk result (queue.new.items ≡ source ∷ []) }
{
    queue.clear();
    reach(source, mark, marks, queue)?;
    Ok(())
}

/// Reaches each FPGA to which one of the steps leads.
fn reach_all(
    steps: &[Step],
    mark: u32,
    marks: &mut [u32],
    queue: &mut Vec<u32>,
) -> Result<(), AllocError>
    requires there { All (λ (s : Step). s.to < length marks.old) steps.now }
    requires lists { ListsMarked mark marks.old queue.old.items }
    ensures { OnOk result (Reaches steps.now mark marks.old queue.old.items marks.new queue.new.items) }
{
    for step in steps {
        reach(step.to, mark, marks, queue)?;
    }
    Ok(())
}

/// Reaches all FPGAs to which steps lead from the one FPGA in the queue, one step after another. The steps
/// stand in the order of the FPGAs that they leave. Each FPGA and each step is looked at once, but for the
/// searches among the steps.
fn flood(
    steps: &[Step],
    mark: u32,
    marks: &mut [u32],
    queue: &mut Vec<u32>,
) -> Result<(), AllocError>
    requires sorted { IsNonDecreasingBy (λ (s : Step). s.from) steps.now }
    requires there { All (λ (s : Step). s.to < length marks.old) steps.now }
    requires lists { ListsMarked mark marks.old queue.old.items }
    requires one { length queue.old.items ≡ 1 }
    ensures lists { OnOk result (ListsMarked mark marks.new queue.new.items) }
    ensures size { OnOk result (length marks.new ≡ length marks.old) }
    ensures source { OnOk result (slice_index marks.new (slice_index queue.old.items 0) ≡ mark) }
    ensures led { OnOk result (All (HasPath steps.now (slice_index queue.old.items 0)) queue.new.items) }
    ensures closed { OnOk result ((v w : ℕ) → v < length marks.old → slice_index marks.new v ≡ mark
        → Contains steps.now (record { from = v; to = w }) → slice_index marks.new w ≡ mark) }
{
    let mut next = 0;
    while next < queue.len() {
        let fpga = queue[next];
        reach_all(steps_from(steps, fpga), mark, marks, queue)?;
        next += 1;
    }
    Ok(())
}

/// Whether all of these FPGAs bear the mark.
fn all_marked(marks: &[u32], fpgas: &[u32], mark: u32) -> bool
    requires { All (λ f. f < length marks.now) fpgas.now }
    ensures { IsTrue result ↔ All (λ f. slice_index marks.now f ≡ mark) fpgas.now }
{
    fpgas.iter().all(|f| marks[*f as usize] == mark)
}

/// Whether steps lead from the first of these FPGAs to all of them. The steps stand in the order of the FPGAs
/// that they leave. The mark is a new one, above all that are borne; the queue may hold anything.
pub(crate) fn leads_to_all(
    steps: &[Step],
    fpgas: &[u32],
    mark: u32,
    marks: &mut [u32],
    queue: &mut Vec<u32>,
) -> Result<bool, AllocError>
    requires sorted { IsNonDecreasingBy (λ (s : Step). s.from) steps.now }
    requires there { All (λ (s : Step). s.to < length marks.old) steps.now }
    requires some { 0 < length fpgas.now }
    requires fpgas_there { All (λ f. f < length marks.old) fpgas.now }
    requires new { All (λ m. m < mark) marks.old }
    ensures leads { IfOk result (λ leads. IsTrue leads
        ↔ All (HasPath steps.now (slice_index fpgas.now 0)) fpgas.now) }
    ensures size { OnOk result (length marks.new ≡ length marks.old) }
    ensures highest { OnOk result (All (λ m. m ≤ mark) marks.new) }
{
    start(fpgas[0], mark, marks, queue)?;
    flood(steps, mark, marks, queue)?;
    Ok(all_marked(marks, fpgas, mark))
}
