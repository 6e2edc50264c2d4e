//! What the lines of a solution text are for, and what they say.
ghost use Rattle.std.specs.Prelude.{◌≡◌, ◌≢◌, ◌+◌, ◌-◌, ◌<◌, ◌≤◌, ◌++◌, ℕ, List, [], ◌∷◌, length, take, slice_index, All, OnOk, IfOk, None};
ghost use Rattle.tdm_lines.specs.Lines.{Line};
ghost use Rattle.tdm_lines.specs.SoFar.{ended_line};
ghost use Rattle.tdm_problem.specs.Limits.{most_nets};
ghost use Rattle.solution_text.specs.Reading.{largest_number};
ghost use Rattle.solution_text.specs.Roles.{Reads, Holds, IsFine, count_of, use_of, said_of, from_use};
ghost use Rattle.solution_text.specs.Steps.{Marks};
ghost use Rattle.solution_text.specs.declared.state.Role.TheVariants as role;

use crate::refusal::{SolutionKind, SolutionRefusal};
use crate::said::{count_said, sort_by_wire, use_said};
use std::alloc::{AllocError, Global};
use tdm_lines::{FirstNumbers, Grammar, TokenFault, clean};
use tdm_problem::{Solution, WireUse};

/// The largest number of a solution text.
pub(crate) const LARGEST_NUMBER: u64 = 4_294_967_295;

/// The refusal of a text for this fault of this line.
pub(crate) fn refusal(kind: SolutionKind, line: u32) -> SolutionRefusal
    ensures { result ≡ record { kind = kind; line = line } }
{
    SolutionRefusal { kind, line }
}

/// What the next line is for.
#[derive(Clone, Copy)]
pub(crate) enum Role {
    /// It says how many uses the next net has; where no net is left, it is one too many.
    Count,
    /// It is a use of the net in progress.
    Use,
    /// The text is refused, whatever comes.
    Refused(SolutionRefusal),
}

/// What the lines of a solution text have said so far, and the first numbers of the line in progress.
#[derive(Drop)]
pub(crate) struct SolutionState {
    alloc: Global,
    role: Role,
    /// How many wires and nets the board has.
    wires: u32,
    nets: u32,
    /// How many nets are still to come, with the net in progress.
    left: u32,
    /// How many uses of the net in progress are still to come.
    count: u32,
    numbers: FirstNumbers,
    /// For each wire of the board, the stamp of the last net that used it; nothing before the first count
    /// line.
    stamps: Vec<u32>,
    uses: Vec<WireUse>,
    solution: Solution,
}

/// Makes a stamp for each of so many wires, unless they are there.
fn make_stamps(stamps: &mut Vec<u32>, alloc: Global, wires: u32) -> Result<(), AllocError>
    ensures count { OnOk result (length stamps.new.items ≡ wires) }
    ensures small { OnOk result ((most : ℕ) → All (λ s. s ≤ most) stamps.old.items
        → All (λ s. s ≤ most) stamps.new.items) }
{
    if stamps.len() == wires as usize {
        return Ok(());
    }
    *stamps = vec![in alloc; 0; wires as usize]?;
    Ok(())
}

impl SolutionState {
    /// Before the first line, for a board with so many wires and nets. No memory is taken.
    pub(crate) fn new(alloc: Global, wires: u32, nets: u32) -> SolutionState
        requires { nets ≤ most_nets }
        ensures fine { IsFine result }
        ensures wires { result.wires ≡ wires }
        ensures nets { result.nets ≡ nets }
        ensures reads { Reads result [] }
        ensures holds { Holds result [] }
    {
        SolutionState {
            alloc,
            role: Role::Count,
            wires,
            nets,
            left: nets,
            count: 0,
            numbers: FirstNumbers::new(alloc, 3, LARGEST_NUMBER),
            stamps: Vec::new(alloc),
            uses: Vec::new(alloc),
            solution: Solution::new(alloc),
        }
    }

    /// The stamp of the net in progress.
    fn stamp(&self) -> u32
        requires { IsFine self.now }
        ensures { result ≡ length self.now.solution + 1 }
    {
        self.nets - self.left + 1
    }

    /// How many uses the line that ends says the next net has, or why it is refused.
    fn count_of(&self, line: u32, fault: Option<TokenFault>) -> Result<u32, SolutionRefusal>
        requires { IsFine self.now }
        ensures some { IfOk result (λ _. 0 < self.now.left) }
        ensures said { (numbers : List ℕ) → (fault ≡ None → self.now.numbers.numbers ≡ take 3 numbers)
            → result ≡ count_of self.now.left line fault numbers }
    {
        if self.left == 0 {
            return Err(refusal(SolutionKind::ExtraLine, line));
        }
        clean(fault, line)?;
        count_said(line, self.numbers.numbers())
    }

    /// The use that the line that ends says the net in progress has, or why it is refused.
    fn use_of(&self, line: u32, fault: Option<TokenFault>) -> Result<WireUse, SolutionRefusal>
        requires fine { IsFine self.now }
        requires role { self.now.role ≡ role.Use }
        ensures there { IfOk result (λ used. used.wire < length self.now.stamps.items) }
        ensures unused { IfOk result (λ used.
            slice_index self.now.stamps.items used.wire ≢ length self.now.solution + 1) }
        ensures said { (numbers : List ℕ) → (fault ≡ None → self.now.numbers.numbers ≡ take 3 numbers)
            → result ≡ use_of self.now.wires self.now.uses.items line fault numbers }
    {
        clean(fault, line)?;
        use_said(line, self.numbers.numbers(), &self.stamps, self.stamp())
    }

    /// Puts the net in progress, which has all its uses, behind the others.
    fn end_net(&mut self) -> Result<(), AllocError>
        requires most { self.old.numbers.most ≡ 3 }
        requires largest { self.old.numbers.largest ≡ largest_number }
        requires nets { self.old.nets ≤ most_nets }
        requires read { length self.old.solution + self.old.left ≡ self.old.nets }
        requires some { 0 < self.old.left }
        requires marks { Marks self.old.stamps.items (length self.old.solution + 1) self.old.uses.items }
        ensures fine { OnOk result (IsFine self.new) }
        ensures wires { self.new.wires ≡ self.old.wires }
        ensures nets { self.new.nets ≡ self.old.nets }
        ensures said { OnOk result ((after : ℕ) (more : List Line)
            → from_use self.old.wires after self.old.solution self.old.uses.items 0 (self.old.left - 1) more
            ≡ said_of self.new after more) }
    {
        sort_by_wire(&mut self.uses);
        self.solution.push_net(&self.uses)?;
        self.left -= 1;
        self.role = Role::Count;
        Ok(())
    }

    /// Begins the next net, which has so many uses.
    fn begin_net(&mut self, count: u32) -> Result<(), AllocError>
        requires fine { IsFine self.old }
        requires role { self.old.role ≡ role.Count }
        requires some { 0 < self.old.left }
        ensures fine { OnOk result (IsFine self.new) }
        ensures wires { self.new.wires ≡ self.old.wires }
        ensures nets { self.new.nets ≡ self.old.nets }
        ensures said { OnOk result ((after : ℕ) (more : List Line)
            → from_use self.old.wires after self.old.solution [] count (self.old.left - 1) more
            ≡ said_of self.new after more) }
    {
        make_stamps(&mut self.stamps, self.alloc, self.wires)?;
        self.uses.clear();
        self.count = count;
        if count == 0 {
            self.end_net()?;
            return Ok(());
        }
        self.role = Role::Use;
        Ok(())
    }

    /// Adds a use of a wire that the net in progress has not used to it.
    fn add_use(&mut self, used: WireUse) -> Result<(), AllocError>
        requires fine { IsFine self.old }
        requires role { self.old.role ≡ role.Use }
        requires there { used.wire < length self.old.stamps.items }
        requires unused { slice_index self.old.stamps.items used.wire ≢ length self.old.solution + 1 }
        ensures fine { OnOk result (IsFine self.new) }
        ensures wires { self.new.wires ≡ self.old.wires }
        ensures nets { self.new.nets ≡ self.old.nets }
        ensures said { OnOk result ((after : ℕ) (more : List Line)
            → from_use self.old.wires after self.old.solution (self.old.uses.items ++ used ∷ [])
            (self.old.count - 1) (self.old.left - 1) more
            ≡ said_of self.new after more) }
    {
        let stamp = self.stamp();
        self.uses.push(used)?;
        self.stamps[used.wire as usize] = stamp;
        self.count -= 1;
        if self.count == 0 {
            self.end_net()?;
            return Ok(());
        }
        Ok(())
    }

    /// Takes the line that ends.
    fn take(&mut self, line: u32, fault: Option<TokenFault>) -> Result<(), AllocError>
        requires { IsFine self.old }
        ensures fine { OnOk result (IsFine self.new) }
        ensures wires { self.new.wires ≡ self.old.wires }
        ensures nets { self.new.nets ≡ self.old.nets }
        ensures said { OnOk result ((numbers : List ℕ) (after : ℕ) (more : List Line)
            → (fault ≡ None → self.old.numbers.numbers ≡ take 3 numbers)
            → said_of self.old after (ended_line line fault numbers ∷ more) ≡ said_of self.new after more) }
    {
        match self.role {
            Role::Refused(_) => Ok(()),
            Role::Count => match self.count_of(line, fault) {
                Ok(count) => {
                    self.begin_net(count)?;
                    Ok(())
                }
                Err(refusal) => {
                    self.role = Role::Refused(refusal);
                    Ok(())
                }
            },
            Role::Use => match self.use_of(line, fault) {
                Ok(used) => {
                    self.add_use(used)?;
                    Ok(())
                }
                Err(refusal) => {
                    self.role = Role::Refused(refusal);
                    Ok(())
                }
            },
        }
    }

    /// The solution that the text says, or its refusal, where it ends in this line.
    pub(crate) fn finish(self, end: u32) -> Result<Solution, SolutionRefusal>
        requires { IsFine self }
        ensures { result ≡ said_of self end [] }
    {
        match self.role {
            Role::Refused(refusal) => Err(refusal),
            Role::Use => Err(refusal(SolutionKind::MissingLine, end)),
            Role::Count => {
                if self.left > 0 {
                    return Err(refusal(SolutionKind::MissingLine, end));
                }
                Ok(self.solution)
            }
        }
    }
}

impl Grammar for SolutionState {
    ghost largest = { largest_number };

    ghost sizes = { λ s. s.wires ∷ s.nets ∷ [] };

    ghost fine = { IsFine };

    ghost reads = { Reads };

    ghost holds = { Holds };

    fn number(&mut self, _place: u32, number: u64) -> Result<(), AllocError> {
        self.numbers.push(number)?;
        Ok(())
    }

    fn line(
        &mut self,
        line: u32,
        fault: Option<TokenFault>,
        _count: u32,
    ) -> Result<(), AllocError> {
        self.take(line, fault)?;
        self.numbers.clear();
        Ok(())
    }
}
