//! What the lines of a board text are for, and what they say.
ghost use Rattle.std.specs.Prelude.{◌≡◌, ◌+◌, ◌<◌, ◌≤◌, ◌^◌, ◌++◌, ℕ, List, [], ◌∷◌, length, OnOk, IfOk, IfErr, None, Ok, Err, sum_by};
ghost use Rattle.tdm_lines.specs.Lines.{Line};
ghost use Rattle.tdm_lines.specs.SoFar.{ended_line};
ghost use Rattle.tdm_problem.specs.Limits.{most_wires, most_nets, most_groups};
ghost use Rattle.contest_input.specs.BoardText.{board_of_lines, largest_number};
ghost use Rattle.contest_input.specs.Roles.{Holds, IsFine, IsInWires, IsInNets, IsInGroups, Reads, said_in, line_kind, room_of, in_wires, in_nets, in_groups};
ghost use Rattle.tdm_lines.specs.Written.{plain_line};
ghost use Rattle.contest_input.specs.Faults.{header_fault, wire_fault, net_fault, group_fault};
ghost use Rattle.contest_input.specs.declared.roles.Role.TheVariants as role;
ghost use Rattle.contest_input.specs.Kinds.{BoardRefusal};

use crate::fault::BoardRefusal;
use crate::header::{Sizes, header_fault, sizes_of};
use crate::kind::BoardKind;
use crate::lists::{group_listing, keep, list_fault, narrow, net_listing};
use crate::wires::{wire_fault, wire_of};
use std::alloc::{AllocError, Global};
use tdm_lines::{Grammar, TokenFault};
use tdm_problem::{MAX_LISTED_FPGAS, MAX_LISTED_NETS, Problem, ProblemDraft};

/// What the next line is for.
#[derive(Clone, Copy)]
pub(crate) enum Role {
    Header,
    Wire,
    Net,
    Group,
    /// Each line that still comes is one too many.
    End,
    /// The text is refused, whatever comes.
    Refused(BoardRefusal),
}

impl Role {
    /// How many numbers are kept of a line, which is one more than it can have without a fault.
    fn room(self) -> usize
        ensures room { result ≡ room_of self }
        ensures some { 0 < result }
    {
        match self {
            Role::Header => 5,
            Role::Wire => 3,
            Role::Net => MAX_LISTED_FPGAS as usize + 1,
            Role::Group => MAX_LISTED_NETS as usize + 1,
            Role::End => 1,
            Role::Refused(_) => 1,
        }
    }
}

/// What the lines of a board text have said so far, and what is kept of the numbers of the line in progress.
#[derive(Drop)]
pub(crate) struct BoardState {
    alloc: Global,
    role: Role,
    sizes: Sizes,
    /// How many lines of this role are still to come.
    left: u32,
    /// How many numbers the earlier lines of this role have.
    listed: u64,
    numbers: Vec<u64>,
    row: Vec<u32>,
    draft: ProblemDraft,
}

impl BoardState {
    /// Before the first line.
    pub(crate) fn new(alloc: Global) -> BoardState
        ensures fine { IsFine result }
        ensures reads { Reads result [] }
        ensures holds { Holds result [] }
    {
        BoardState {
            alloc,
            role: Role::Header,
            sizes: Sizes {
                fpgas: 0,
                wires: 0,
                nets: 0,
                groups: 0,
            },
            left: 1,
            listed: 0,
            numbers: Vec::new(alloc),
            row: Vec::new(alloc),
            draft: ProblemDraft::new(alloc, 0),
        }
    }

    /// What is wrong with the line that ends, if anything.
    fn line_fault(&self, fault: Option<TokenFault>) -> Option<BoardKind>
        requires { self.now.listed ≤ 2 ^ 24 }
        ensures { (n : ℕ) → result ≡ line_kind self.now.role self.now.sizes self.now.listed
            (ended_line n fault self.now.numbers.items) }
    {
        let total = self.listed + self.numbers.len() as u64;
        let sizes = self.sizes;
        match (self.role, fault) {
            (Role::Refused(_), _) => None,
            (Role::End, _) => Some(BoardKind::ExtraLine),
            (_, Some(TokenFault::BadNumber)) => Some(BoardKind::BadNumber),
            (_, Some(TokenFault::NumberTooLarge)) => Some(BoardKind::NumberTooLarge),
            (Role::Header, None) => header_fault(&self.numbers),
            (Role::Wire, None) => wire_fault(sizes.fpgas, &self.numbers),
            (Role::Net, None) => list_fault(net_listing(sizes.fpgas), total, &self.numbers),
            (Role::Group, None) => list_fault(group_listing(sizes.nets), total, &self.numbers),
        }
    }

    /// Goes on to the group lines, or past them where there are none.
    fn begin_groups(&mut self)
        requires nets { length self.old.draft.nets ≡ self.old.sizes.nets }
        requires groups { self.old.sizes.groups ≤ most_groups }
        requires none { self.old.draft.groups ≡ [] }
        ensures fine { IsFine self.new }
        ensures numbers { self.new.numbers ≡ self.old.numbers }
        ensures said { (end : ℕ) (lines : List Line)
            → said_in self.new.role self.new.sizes self.new.draft self.new.left self.new.listed end lines
            ≡ in_groups self.old.sizes self.old.draft self.old.sizes.groups 0 end lines }
    {
        self.listed = 0;
        self.left = self.sizes.groups;
        if self.sizes.groups == 0 {
            self.role = Role::End;
            return;
        }
        self.role = Role::Group;
    }

    /// Goes on to the net lines, or past them where there are none.
    fn begin_nets(&mut self)
        requires fpgas { self.old.draft.fpgas ≡ self.old.sizes.fpgas }
        requires nets { self.old.sizes.nets ≤ most_nets }
        requires groups { self.old.sizes.groups ≤ most_groups }
        requires no_net { self.old.draft.nets ≡ [] }
        requires no_group { self.old.draft.groups ≡ [] }
        ensures fine { IsFine self.new }
        ensures numbers { self.new.numbers ≡ self.old.numbers }
        ensures said { (end : ℕ) (lines : List Line)
            → said_in self.new.role self.new.sizes self.new.draft self.new.left self.new.listed end lines
            ≡ in_nets self.old.sizes self.old.draft self.old.sizes.nets 0 end lines }
    {
        if self.sizes.nets == 0 {
            self.begin_groups();
            return;
        }
        self.listed = 0;
        self.left = self.sizes.nets;
        self.role = Role::Net;
    }

    /// Goes on to the wire lines, or past them where there are none.
    fn begin_wires(&mut self)
        requires fpgas { self.old.draft.fpgas ≡ self.old.sizes.fpgas }
        requires wires { length self.old.draft.wires + self.old.sizes.wires ≤ most_wires }
        requires nets { self.old.sizes.nets ≤ most_nets }
        requires groups { self.old.sizes.groups ≤ most_groups }
        requires no_net { self.old.draft.nets ≡ [] }
        requires no_group { self.old.draft.groups ≡ [] }
        ensures fine { IsFine self.new }
        ensures numbers { self.new.numbers ≡ self.old.numbers }
        ensures said { (end : ℕ) (lines : List Line)
            → said_in self.new.role self.new.sizes self.new.draft self.new.left self.new.listed end lines
            ≡ in_wires self.old.sizes self.old.draft self.old.sizes.wires end lines }
    {
        if self.sizes.wires == 0 {
            self.begin_nets();
            return;
        }
        self.listed = 0;
        self.left = self.sizes.wires;
        self.role = Role::Wire;
    }

    /// Takes a header without fault.
    fn take_header(&mut self)
        requires { header_fault self.old.numbers.items ≡ None }
        ensures fine { IsFine self.new }
        ensures numbers { self.new.numbers ≡ self.old.numbers }
        ensures said { (n end : ℕ) (more : List Line)
            → board_of_lines end (plain_line n self.old.numbers.items ∷ more)
            ≡ said_in self.new.role self.new.sizes self.new.draft self.new.left self.new.listed end more }
    {
        let sizes = sizes_of(&self.numbers);
        self.draft = ProblemDraft::new(self.alloc, sizes.fpgas);
        self.sizes = sizes;
        self.begin_wires();
    }

    /// Takes a wire line without fault.
    fn take_wire(&mut self) -> Result<(), AllocError>
        requires role { self.old.role ≡ role.Wire }
        requires there { IsInWires self.old.sizes self.old.draft self.old.left }
        requires small { self.old.listed ≤ 2 ^ 24 }
        requires clean { wire_fault self.old.sizes.fpgas self.old.numbers.items ≡ None }
        ensures fine { OnOk result (IsFine self.new) }
        ensures said { OnOk result ((n end : ℕ) (more : List Line)
            → in_wires self.old.sizes self.old.draft self.old.left end (plain_line n self.old.numbers.items
            ∷ more)
            ≡ said_in self.new.role self.new.sizes self.new.draft self.new.left self.new.listed end more) }
    {
        let wire = wire_of(self.sizes.fpgas, &self.numbers);
        self.draft.push_wire(wire)?;
        self.left -= 1;
        if self.left > 0 {
            return Ok(());
        }
        self.begin_nets();
        Ok(())
    }

    /// Takes a net line without fault.
    fn take_net(&mut self) -> Result<(), AllocError>
        requires role { self.old.role ≡ role.Net }
        requires there { IsInNets self.old.sizes self.old.draft self.old.left self.old.listed }
        requires some { 0 < length self.old.numbers.items }
        requires clean { net_fault self.old.sizes.fpgas (self.old.listed + length self.old.numbers.items)
            self.old.numbers.items ≡ None }
        ensures fine { OnOk result (IsFine self.new) }
        ensures said { OnOk result ((n end : ℕ) (more : List Line)
            → in_nets self.old.sizes self.old.draft self.old.left self.old.listed end
            (plain_line n self.old.numbers.items ∷ more)
            ≡ said_in self.new.role self.new.sizes self.new.draft self.new.left self.new.listed end more) }
    {
        narrow(&self.numbers, &mut self.row)?;
        self.draft.push_net(&self.row)?;
        self.listed += self.numbers.len() as u64;
        self.left -= 1;
        if self.left > 0 {
            return Ok(());
        }
        self.begin_groups();
        Ok(())
    }

    /// Takes a group line without fault.
    fn take_group(&mut self) -> Result<(), AllocError>
        requires role { self.old.role ≡ role.Group }
        requires there { IsInGroups self.old.sizes self.old.draft self.old.left self.old.listed }
        requires some { 0 < length self.old.numbers.items }
        requires clean { group_fault self.old.sizes.nets (self.old.listed + length self.old.numbers.items)
            self.old.numbers.items ≡ None }
        ensures fine { OnOk result (IsFine self.new) }
        ensures said { OnOk result ((n end : ℕ) (more : List Line)
            → in_groups self.old.sizes self.old.draft self.old.left self.old.listed end
            (plain_line n self.old.numbers.items ∷ more)
            ≡ said_in self.new.role self.new.sizes self.new.draft self.new.left self.new.listed end more) }
    {
        narrow(&self.numbers, &mut self.row)?;
        self.draft.push_group(&self.row)?;
        self.listed += self.numbers.len() as u64;
        self.left -= 1;
        if self.left > 0 {
            return Ok(());
        }
        self.role = Role::End;
        Ok(())
    }

    /// Takes a line without fault. A net line or a group line has a number.
    fn take(&mut self) -> Result<(), AllocError>
        requires fine { IsFine self.old }
        requires clean { line_kind self.old.role self.old.sizes self.old.listed
            (plain_line 0 self.old.numbers.items) ≡ None }
        ensures fine { OnOk result (IsFine self.new) }
        ensures stays { (why : BoardRefusal) → self.old.role ≡ role.Refused why
            → OnOk result (self.new.role ≡ role.Refused why) }
        ensures said { OnOk result ((n end : ℕ) (more : List Line) → 0 < length self.old.numbers.items
            → said_in self.old.role self.old.sizes self.old.draft self.old.left self.old.listed end
            (plain_line n self.old.numbers.items ∷ more)
            ≡ said_in self.new.role self.new.sizes self.new.draft self.new.left self.new.listed end more) }
    {
        if self.numbers.is_empty() {
            return Ok(());
        }
        match self.role {
            Role::Header => {
                self.take_header();
                Ok(())
            }
            Role::Wire => self.take_wire(),
            Role::Net => self.take_net(),
            Role::Group => self.take_group(),
            Role::End | Role::Refused(_) => Ok(()),
        }
    }

    /// The board that the text describes, or its refusal, where it ends in this line.
    pub(crate) fn finish(self, end: u32) -> Result<Problem, BoardRefusal>
        requires { IsFine self }
        ensures { result ≡ said_in self.role self.sizes self.draft self.left self.listed end [] }
    {
        match self.role {
            Role::Refused(refusal) => Err(refusal),
            Role::End => Ok(self.draft.into_problem()),
            Role::Header => Err(BoardRefusal {
                kind: BoardKind::NoHeader,
                line: end,
            }),
            Role::Wire => Err(BoardRefusal {
                kind: BoardKind::MissingLine,
                line: end,
            }),
            Role::Net => Err(BoardRefusal {
                kind: BoardKind::MissingLine,
                line: end,
            }),
            Role::Group => Err(BoardRefusal {
                kind: BoardKind::MissingLine,
                line: end,
            }),
        }
    }
}

impl Grammar for BoardState {
    ghost largest = { largest_number };

    ghost sizes = { λ _. [] };

    ghost fine = { IsFine };

    ghost reads = { Reads };

    ghost holds = { Holds };

    fn number(&mut self, _place: u32, number: u64) -> Result<(), AllocError> {
        let room = self.role.room();
        keep(&mut self.numbers, room, number)?;
        Ok(())
    }

    fn line(
        &mut self,
        line: u32,
        fault: Option<TokenFault>,
        _count: u32,
    ) -> Result<(), AllocError> {
        if let Some(kind) = self.line_fault(fault) {
            self.role = Role::Refused(BoardRefusal { kind, line });
            self.numbers.clear();
            return Ok(());
        }
        self.take()?;
        self.numbers.clear();
        Ok(())
    }
}
