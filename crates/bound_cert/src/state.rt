//! What the lines of a certificate text are for, and what they say.
ghost use Rattle.std.specs.Prelude.{◌≡◌, true, ◌<◌, ◌≤◌, ℕ, List, [], length, All, OnOk, IfOk, Ok, Result};
ghost use Rattle.tdm_lines.specs.Lines.{Line};
ghost use Rattle.bound_cert.specs.Certificate.{Cert, IsPotential, HasUnit};
ghost use Rattle.tdm_lines.specs.Refusals.{Leads, IsFaultOf};
ghost use Rattle.bound_cert.specs.CertReading.{header_said, number_said, potential_said};
ghost use Rattle.bound_cert.specs.CertReader.{listed};
ghost use Rattle.bound_cert.specs.Limits.{most_potentials, most_potential_value};
ghost use Rattle.bound_cert.specs.Roles.{AreTaken, Holds, IsFine, IsKept, Reads, Takes, in_potentials, line_said, past_header, past_potentials, past_weights, said_of, so_far};
ghost use Rattle.bound_cert.specs.CertKinds.{CertRefusal as Refusal};
ghost use Rattle.bound_cert.specs.declared.state.Role.TheVariants as role;

use crate::certificate::{CertKind, Certificate};
use crate::header::{Header, header_said};
use crate::limits::{MAX_LENGTH, MAX_POTENTIAL_VALUE, MAX_WEIGHT};
use crate::potential::Potential;
use crate::refusal::{CertFault, CertRefusal, CertTextKind};
use crate::said::{number_said, potential_said};
use std::alloc::{AllocError, Global};
use tdm_lines::{FirstNumbers, Grammar, TokenFault, clean};

/// What the next line is for.
#[derive(Clone, Copy)]
pub(crate) enum Role {
    Header,
    Weight,
    Length,
    Potential,
    Choice,
    /// Each line that still comes is one too many.
    End,
    /// The text is refused, whatever comes.
    Refused(CertRefusal),
}

/// How many FPGAs, groups, wires and nets the board has.
#[derive(Clone, Copy)]
pub(crate) struct Sizes {
    pub(crate) fpgas: u32,
    pub(crate) groups: u32,
    pub(crate) wires: u32,
    pub(crate) nets: u32,
}

/// What the lines of a certificate text have said so far, and the first numbers of the line in progress.
#[derive(Drop)]
pub(crate) struct CertState {
    alloc: Global,
    role: Role,
    sizes: Sizes,
    header: Header,
    /// How many lines of this role are still to come.
    left: u32,
    numbers: FirstNumbers,
    weights: Vec<u64>,
    lengths: Vec<u64>,
    potentials: Vec<Potential>,
    choices: Vec<u32>,
}

impl CertState {
    /// Before the first line, for a board of these sizes. No memory is taken.
    pub(crate) fn new(alloc: Global, sizes: Sizes) -> CertState
        ensures fine { IsFine result }
        ensures sizes { result.sizes ≡ sizes }
        ensures reads { Reads result [] }
        ensures holds { Holds result [] }
    {
        CertState {
            alloc,
            role: Role::Header,
            sizes,
            header: Header {
                kind: CertKind::Share,
                grows: false,
                potentials: 0,
            },
            left: 0,
            numbers: FirstNumbers::new(alloc, sizes.fpgas as usize + 5, MAX_POTENTIAL_VALUE),
            weights: Vec::new(alloc),
            lengths: Vec::new(alloc),
            potentials: Vec::new(alloc),
            choices: Vec::new(alloc),
        }
    }

    /// Goes on to the choices, or past them where nets grow or there are none.
    fn begin_choices(&mut self) -> Result<(), AllocError>
        requires kept { IsKept self.old.numbers self.old.sizes self.old.header.potentials (so_far self.old) }
        requires all_there { length self.old.potentials.items ≡ self.old.header.potentials }
        requires no_choice { self.old.choices.items ≡ [] }
        ensures fine { OnOk result (IsFine self.new) }
        ensures sizes { self.new.sizes ≡ self.old.sizes }
        ensures said { OnOk result ((after : ℕ) (lines : List Line) → said_of self.new after lines
            ≡ past_potentials after self.old.sizes self.old.header.potentials (so_far self.old) lines) }
    {
        if self.header.grows {
            self.choices = vec![in self.alloc; 0; self.sizes.nets as usize]?;
            self.role = Role::End;
            return Ok(());
        }
        if self.sizes.nets == 0 {
            self.role = Role::End;
            return Ok(());
        }
        self.left = self.sizes.nets;
        self.role = Role::Choice;
        Ok(())
    }

    /// Goes on to the potentials, or past them where there are none.
    fn begin_potentials(&mut self) -> Result<(), AllocError>
        requires kept { IsKept self.old.numbers self.old.sizes self.old.header.potentials (so_far self.old) }
        requires no_potential { self.old.potentials.items ≡ [] }
        requires no_choice { self.old.choices.items ≡ [] }
        ensures fine { OnOk result (IsFine self.new) }
        ensures sizes { self.new.sizes ≡ self.old.sizes }
        ensures said { OnOk result ((after : ℕ) (lines : List Line) → said_of self.new after lines
            ≡ in_potentials after self.old.sizes self.old.header.potentials (so_far self.old)
            self.old.header.potentials lines) }
    {
        if self.header.potentials == 0 {
            self.begin_choices()?;
            return Ok(());
        }
        self.left = self.header.potentials;
        self.role = Role::Potential;
        Ok(())
    }

    /// Goes on to the lengths, or past them where each is the unit or there are none.
    fn begin_lengths(&mut self) -> Result<(), AllocError>
        requires kept { IsKept self.old.numbers self.old.sizes self.old.header.potentials (so_far self.old) }
        requires no_length { self.old.lengths.items ≡ [] }
        requires no_potential { self.old.potentials.items ≡ [] }
        requires no_choice { self.old.choices.items ≡ [] }
        ensures fine { OnOk result (IsFine self.new) }
        ensures sizes { self.new.sizes ≡ self.old.sizes }
        ensures said { OnOk result ((after : ℕ) (lines : List Line) → said_of self.new after lines
            ≡ past_weights after self.old.sizes self.old.header.potentials (so_far self.old) lines) }
    {
        match self.header.kind {
            CertKind::Hop { unit } => {
                self.lengths = vec![in self.alloc; unit; self.sizes.wires as usize]?;
                self.begin_potentials()?;
                Ok(())
            }
            CertKind::Share => {
                if self.sizes.wires == 0 {
                    self.begin_potentials()?;
                    return Ok(());
                }
                self.left = self.sizes.wires;
                self.role = Role::Length;
                Ok(())
            }
        }
    }

    /// Takes the header, and goes on to the weights, or past them where there are none.
    fn begin_weights(&mut self, header: Header) -> Result<(), AllocError>
        requires fine { IsFine self.old }
        requires role { self.old.role ≡ role.Header }
        requires few { header.potentials ≤ most_potentials }
        requires some { 0 < header.potentials → 0 < self.old.sizes.fpgas }
        requires grown { header.grows ≡ true → header.potentials ≡ 0 }
        requires kind { HasUnit header.kind }
        ensures fine { OnOk result (IsFine self.new) }
        ensures sizes { self.new.sizes ≡ self.old.sizes }
        ensures said { OnOk result ((after : ℕ) (lines : List Line) → said_of self.new after lines
            ≡ past_header after self.old.sizes header lines) }
    {
        self.header = header;
        if self.sizes.groups == 0 {
            self.begin_lengths()?;
            return Ok(());
        }
        self.left = self.sizes.groups;
        self.role = Role::Weight;
        Ok(())
    }

    /// The number that the line that ends says, at most the limit, or why it is refused.
    fn number_of(
        &self,
        above: CertTextKind,
        limit: u64,
        line: u32,
        fault: Option<TokenFault>,
    ) -> Result<u64, CertFault>
        requires { IsFine self.now }
        ensures within { IfOk result (λ n. n ≤ limit) }
        ensures said { (numbers : List ℕ) → AreTaken self.now.sizes self.now.numbers fault numbers
            → Leads result (line_said (number_said above limit) line fault numbers) Ok }
    {
        clean(fault, line)?;
        number_said(above, limit, line, self.numbers.numbers())
    }

    /// The potential that the line that ends says, or why it is refused.
    fn potential_of(&self, line: u32, fault: Option<TokenFault>) -> Result<Potential, CertFault>
        requires { IsFine self.now }
        ensures count { IfOk result (λ potential. length potential ≡ self.now.sizes.fpgas) }
        ensures within { IfOk result (All (λ v. v ≤ most_potential_value)) }
        ensures said { (numbers : List ℕ) → AreTaken self.now.sizes self.now.numbers fault numbers
            → Leads result (line_said (potential_said self.now.sizes.fpgas) line fault numbers) Ok }
    {
        clean(fault, line)?;
        potential_said(self.alloc, self.sizes.fpgas, line, self.numbers.numbers())
    }

    /// The header that the line that ends says, or why it is refused.
    fn header_of(&self, line: u32, fault: Option<TokenFault>) -> Result<Header, CertFault>
        requires { IsFine self.now }
        ensures few { IfOk result (λ header. header.potentials ≤ most_potentials) }
        ensures some { IfOk result (λ header. 0 < header.potentials → 0 < self.now.sizes.fpgas) }
        ensures grown { IfOk result (λ header. header.grows ≡ true → header.potentials ≡ 0) }
        ensures kind { IfOk result (λ header. HasUnit header.kind) }
        ensures said { (numbers : List ℕ) → AreTaken self.now.sizes self.now.numbers fault numbers
            → Leads result (line_said (header_said self.now.sizes.fpgas) line fault numbers) Ok }
    {
        clean(fault, line)?;
        header_said(self.sizes.fpgas, line, self.numbers.numbers())
    }

    /// Refuses the text for this fault, unless memory was wanting.
    fn refuse(&mut self, fault: CertFault) -> Result<(), AllocError>
        requires { IsFine self.old }
        ensures fine { OnOk result (IsFine self.new) }
        ensures sizes { self.new.sizes ≡ self.old.sizes }
        ensures said { OnOk result ((said : Result Cert Refusal) (after : ℕ) (lines : List Line)
            → IsFaultOf fault said → said ≡ said_of self.new after lines) }
    {
        match fault {
            CertFault::NoMemory => Err(AllocError),
            CertFault::Refused(refusal) => {
                self.role = Role::Refused(refusal);
                Ok(())
            }
        }
    }

    /// The line that ends is the header.
    fn header_line(&mut self, line: u32, fault: Option<TokenFault>) -> Result<(), AllocError>
        requires fine { IsFine self.old }
        requires role { self.old.role ≡ role.Header }
        ensures fine { OnOk result (IsFine self.new) }
        ensures sizes { self.new.sizes ≡ self.old.sizes }
        ensures said { OnOk result (Takes line fault self.old self.new) }
    {
        match self.header_of(line, fault) {
            Ok(header) => {
                self.begin_weights(header)?;
                Ok(())
            }
            Err(fault) => {
                self.refuse(fault)?;
                Ok(())
            }
        }
    }

    /// The line that ends is a weight.
    fn weight_line(&mut self, line: u32, fault: Option<TokenFault>) -> Result<(), AllocError>
        requires fine { IsFine self.old }
        requires role { self.old.role ≡ role.Weight }
        ensures fine { OnOk result (IsFine self.new) }
        ensures sizes { self.new.sizes ≡ self.old.sizes }
        ensures said { OnOk result (Takes line fault self.old self.new) }
    {
        match self.number_of(CertTextKind::WeightLimit, MAX_WEIGHT, line, fault) {
            Ok(weight) => {
                self.weights.push(weight)?;
                self.left -= 1;
                if self.left > 0 {
                    return Ok(());
                }
                self.begin_lengths()?;
                Ok(())
            }
            Err(fault) => {
                self.refuse(fault)?;
                Ok(())
            }
        }
    }

    /// The line that ends is a length.
    fn length_line(&mut self, line: u32, fault: Option<TokenFault>) -> Result<(), AllocError>
        requires fine { IsFine self.old }
        requires role { self.old.role ≡ role.Length }
        ensures fine { OnOk result (IsFine self.new) }
        ensures sizes { self.new.sizes ≡ self.old.sizes }
        ensures said { OnOk result (Takes line fault self.old self.new) }
    {
        match self.number_of(CertTextKind::LengthLimit, MAX_LENGTH, line, fault) {
            Ok(length) => {
                self.lengths.push(length)?;
                self.left -= 1;
                if self.left > 0 {
                    return Ok(());
                }
                self.begin_potentials()?;
                Ok(())
            }
            Err(fault) => {
                self.refuse(fault)?;
                Ok(())
            }
        }
    }

    /// The line that ends is a potential.
    fn potential_line(&mut self, line: u32, fault: Option<TokenFault>) -> Result<(), AllocError>
        requires fine { IsFine self.old }
        requires role { self.old.role ≡ role.Potential }
        ensures fine { OnOk result (IsFine self.new) }
        ensures sizes { self.new.sizes ≡ self.old.sizes }
        ensures said { OnOk result (Takes line fault self.old self.new) }
    {
        match self.potential_of(line, fault) {
            Ok(potential) => {
                self.potentials.push(potential)?;
                self.left -= 1;
                if self.left > 0 {
                    return Ok(());
                }
                self.begin_choices()?;
                Ok(())
            }
            Err(fault) => {
                self.refuse(fault)?;
                Ok(())
            }
        }
    }

    /// The line that ends is the choice of a net.
    fn choice_line(&mut self, line: u32, fault: Option<TokenFault>) -> Result<(), AllocError>
        requires fine { IsFine self.old }
        requires role { self.old.role ≡ role.Choice }
        ensures fine { OnOk result (IsFine self.new) }
        ensures sizes { self.new.sizes ≡ self.old.sizes }
        ensures said { OnOk result (Takes line fault self.old self.new) }
    {
        let most = self.header.potentials as u64;
        match self.number_of(CertTextKind::UnknownPotential, most, line, fault) {
            Ok(choice) => {
                self.choices.push(choice as u32)?;
                self.left -= 1;
                if self.left > 0 {
                    return Ok(());
                }
                self.role = Role::End;
                Ok(())
            }
            Err(fault) => {
                self.refuse(fault)?;
                Ok(())
            }
        }
    }

    /// Takes the line that ends.
    fn take(&mut self, line: u32, fault: Option<TokenFault>) -> Result<(), AllocError>
        requires { IsFine self.old }
        ensures fine { OnOk result (IsFine self.new) }
        ensures sizes { self.new.sizes ≡ self.old.sizes }
        ensures said { OnOk result (Takes line fault self.old self.new) }
    {
        match self.role {
            Role::Header => self.header_line(line, fault),
            Role::Weight => self.weight_line(line, fault),
            Role::Length => self.length_line(line, fault),
            Role::Potential => self.potential_line(line, fault),
            Role::Choice => self.choice_line(line, fault),
            Role::End => {
                self.role = Role::Refused(CertRefusal {
                    kind: CertTextKind::ExtraLine,
                    line,
                });
                Ok(())
            }
            Role::Refused(_) => Ok(()),
        }
    }

    /// The certificate that the text says, or its refusal, where it ends in this line.
    pub(crate) fn finish(self, end: u32) -> Result<Certificate, CertRefusal>
        requires { IsFine self }
        ensures { result ≡ said_of self end [] }
    {
        let missing = CertRefusal {
            kind: CertTextKind::MissingLine,
            line: end,
        };
        match self.role {
            Role::Refused(refusal) => Err(refusal),
            Role::End => Ok(Certificate::from_parts(
                self.header.kind,
                self.header.grows,
                self.weights,
                self.lengths,
                self.potentials,
                self.choices,
            )),
            Role::Header => Err(CertRefusal {
                kind: CertTextKind::NoHeader,
                line: end,
            }),
            Role::Weight => Err(missing),
            Role::Length => Err(missing),
            Role::Potential => Err(missing),
            Role::Choice => Err(missing),
        }
    }
}

impl Grammar for CertState {
    ghost largest = { most_potential_value };

    ghost sizes = { λ s. listed s.sizes };

    ghost fine = { IsFine };

    ghost reads = { Reads };

    ghost holds = { Holds };

    fn number(&mut self, _place: u32, number: u64) -> Result<(), AllocError> {
        self.numbers.push(number)?;
        Ok(())
    }

    fn line(
        &mut self,
        line: u32,
        fault: Option<TokenFault>,
        _count: u32,
    ) -> Result<(), AllocError> {
        self.take(line, fault)?;
        self.numbers.clear();
        Ok(())
    }
}
