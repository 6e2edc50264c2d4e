//! Certificates.
ghost use Rattle.std.specs.Prelude.{◌≡◌, true, ◌<◌, ◌≤◌, length, slice_get, slice_index_or, All, Some};
ghost use Rattle.bound_cert.specs.Certificate.{Cert, IsCert, IsPotential, HasLengths, weight_of, length_of, potential_of, choice_of};
ghost use Rattle.bound_cert.specs.CertText.{listed_lengths, listed_choices};
ghost use Rattle.tdm_problem.specs.Limits.{most_weight};
ghost use Rattle.bound_cert.specs.Limits.{most_length, most_potentials};

use crate::potential::Potential;
use std::marker::Model;

/// Which inequality a certificate rests on.
#[derive(Clone, Copy, Debug, PartialEq, Eq)]
pub enum CertKind {
    /// The nets of a wire share it: their reciprocals sum to at most 1.
    Share,
    /// Each ratio is at least 2. Every wire has the length `unit`, from 1 to [`MAX_UNIT`](crate::MAX_UNIT).
    Hop { unit: u64 },
}

/// A lower bound's certificate: a weight for each group, a length for each wire, and what nets are spread by.
/// That is their growth over the lengths, or potentials with a value for each FPGA, and for each net which
/// potential it chooses.
#[derive(Drop)]
pub struct Certificate {
    kind: CertKind,
    grows: bool,
    weights: Vec<u64>,
    lengths: Vec<u64>,
    potentials: Vec<Potential>,
    choices: Vec<u32>,
}

impl Model for Certificate {
    ghost use Rattle.bound_cert.specs.Certificate.{Cert, IsCert};

    ghost Value = { Cert };

    ghost view = { λ c. record {
      kind = c.kind;
      grows = c.grows;
      weights = c.weights.items;
      lengths = c.lengths.items;
      potentials = c.potentials.items;
      choices = c.choices.items;
    } };

    ghost invariant = { λ c. IsCert (record {
      kind = c.kind;
      grows = c.grows;
      weights = c.weights.items;
      lengths = c.lengths.items;
      potentials = c.potentials.items;
      choices = c.choices.items;
    }) };
}

impl Certificate {
    /// The certificate of these parts.
    pub(crate) fn from_parts(
        kind: CertKind,
        grows: bool,
        weights: Vec<u64>,
        lengths: Vec<u64>,
        potentials: Vec<Potential>,
        choices: Vec<u32>,
    ) -> Certificate
        requires weights_within { All (λ w. w ≤ most_weight) weights.items }
        requires lengths_within { HasLengths kind lengths.items }
        requires few_potentials { length potentials.items ≤ most_potentials }
        requires none_grown { grows ≡ true → length potentials.items ≡ 0 }
        requires potentials_within { All IsPotential potentials.items }
        requires choices_there { All (λ c. c ≤ length potentials.items) choices.items }
        ensures { result ≡ record {
          kind = kind;
          grows = grows;
          weights = weights.items;
          lengths = lengths.items;
          potentials = potentials.items;
          choices = choices.items;
        } }
    {
        Certificate {
            kind,
            grows,
            weights,
            lengths,
            potentials,
            choices,
        }
    }

    /// Which inequality the certificate rests on.
    pub fn kind(&self) -> CertKind
        ensures value { result ≡ self.now.kind }
        ensures ranges { IsCert self.now }
    {
        self.kind
    }

    /// Whether the spread of each net is its growth: then there are no potentials, and no net chooses one.
    pub fn grows(&self) -> bool
        ensures value { result ≡ self.now.grows }
    {
        self.grows
    }

    /// The weight of group `g`, counted from 0: at most [`MAX_WEIGHT`](crate::MAX_WEIGHT).
    pub fn weight(&self, g: u32) -> u64
        requires { g < length self.now.weights }
        ensures value { result ≡ weight_of self.now g }
        ensures within { result ≤ most_weight }
    {
        self.weights[g as usize]
    }

    /// The length of wire `e`, counted from 0: at most [`MAX_LENGTH`](crate::MAX_LENGTH), and the unit where
    /// the certificate is by hops.
    pub fn length(&self, e: u32) -> u64
        requires { e < length self.now.lengths }
        ensures value { result ≡ length_of self.now e }
        ensures within { result ≤ most_length }
    {
        self.lengths[e as usize]
    }

    /// The lengths, wires in order, each at most [`MAX_LENGTH`](crate::MAX_LENGTH).
    pub fn lengths(&self) -> &[u64]
        ensures value { result.now ≡ self.now.lengths }
        ensures within { All (λ l. l ≤ most_length) result.now }
        ensures ranges { IsCert self.now }
    {
        self.lengths.as_slice()
    }

    /// The weights, groups in order.
    pub(crate) fn weights(&self) -> &[u64]
        ensures { result.now ≡ self.now.weights }
    {
        self.weights.as_slice()
    }

    /// The lengths that a text lists: wires in order, or none where each is the unit.
    pub(crate) fn listed_lengths(&self) -> &[u64]
        ensures { result.now ≡ listed_lengths self.now.kind self.now.lengths }
    {
        match self.kind {
            CertKind::Share => self.lengths.as_slice(),
            CertKind::Hop { .. } => &[],
        }
    }

    /// The choices that a text lists: nets in order, or none where nets grow.
    pub(crate) fn listed_choices(&self) -> &[u32]
        ensures { result.now ≡ listed_choices self.now.grows self.now.choices }
    {
        if self.grows {
            return &[];
        }
        self.choices.as_slice()
    }

    /// How many potentials there are, at most [`MAX_POTENTIALS`](crate::MAX_POTENTIALS).
    pub fn potentials(&self) -> u32
        ensures value { result ≡ length self.now.potentials }
        ensures within { result ≤ most_potentials }
    {
        self.potentials.len() as u32
    }

    /// The values of potential `p`, counted from 0, FPGAs in order: at least one value, each at most
    /// [`MAX_POTENTIAL_VALUE`](crate::MAX_POTENTIAL_VALUE).
    pub fn potential(&self, p: u32) -> &[u64]
        requires { p < length self.now.potentials }
        ensures value { potential_of self.now p ≡ result.now }
        ensures potential { IsPotential result.now }
    {
        self.potentials[p as usize].values()
    }

    /// Which potential net `n` chooses, nets counted from 0: 0 for none, else the potential's number plus 1.
    pub fn choice(&self, n: u32) -> u32
        requires { n < length self.now.choices }
        ensures value { result ≡ choice_of self.now n }
        ensures there { result ≤ length self.now.potentials }
    {
        self.choices[n as usize]
    }
}
