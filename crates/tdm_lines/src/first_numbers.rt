//! The first numbers of a line.
ghost use Rattle.std.specs.Prelude.{◌≡◌, ◌≤◌, ◌++◌, ℕ, List, [], ◌∷◌, All, OnOk};
ghost use Rattle.tdm_lines.specs.FirstNumbers.{AreFirst};

use std::alloc::{AllocError, Global};
use std::marker::Model;

/// The first numbers of a line, so many and no more, however long the line is. Where a number is above the
/// largest that it is told of, it keeps the largest in its place.
#[derive(Drop)]
pub struct FirstNumbers {
    most: usize,
    largest: u64,
    numbers: Vec<u64>,
}

impl Model for FirstNumbers {
    ghost use Rattle.std.specs.Prelude.{◌≤◌, All};
    ghost use Rattle.tdm_lines.specs.FirstNumbers.{Firsts};

    ghost Value = { Firsts };

    ghost view = { λ f. record { most = f.most; largest = f.largest; numbers = f.numbers.items } };

    ghost invariant = { λ f. All (λ n. n ≤ f.largest) f.numbers.items };
}

/// The number, or the largest where it is above that.
fn at_most(number: u64, largest: u64) -> u64
    ensures within { result ≤ largest }
    ensures same { number ≤ largest → result ≡ number }
{
    if number > largest {
        return largest;
    }
    number
}

impl FirstNumbers {
    /// Before the first number of a line, of which so many are kept. No memory is taken.
    pub fn new(alloc: Global, most: usize, largest: u64) -> FirstNumbers
        ensures { result ≡ record { most = most; largest = largest; numbers = [] } }
    {
        FirstNumbers {
            most,
            largest,
            numbers: Vec::new(alloc),
        }
    }

    /// The line has one number more.
    pub fn push(&mut self, number: u64) -> Result<(), AllocError>
        ensures most { self.new.most ≡ self.old.most }
        ensures largest { self.new.largest ≡ self.old.largest }
        ensures first { OnOk result ((numbers : List ℕ) → AreFirst self.old numbers
            → AreFirst self.new (numbers ++ number ∷ [])) }
    {
        if self.numbers.len() < self.most {
            self.numbers.push(at_most(number, self.largest))?;
        }
        Ok(())
    }

    /// The next line begins.
    pub fn clear(&mut self)
        ensures { self.new ≡ record self.old { numbers = [] } }
    {
        self.numbers.clear();
    }

    /// The numbers that are kept.
    pub fn numbers(&self) -> &[u64]
        ensures value { result.now ≡ self.now.numbers }
        ensures within { All (λ n. n ≤ self.now.largest) result.now }
    {
        &self.numbers
    }
}
