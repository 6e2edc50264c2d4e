//! Rows without their repeated numbers.
ghost use Rattle.std.specs.Prelude.{◌≡◌, ◌+◌, ◌^◌, ◌<◌, ◌≤◌, length, All, OnOk, OnErr, ◌==◌, vec_len};
ghost use Rattle.std.specs.List.{list_any};
ghost use Rattle.tdm_problem.specs.Board.{without_repeats};
ghost use Rattle.tdm_problem.specs.Firsts.{with_met, IsIndexed};

use std::alloc::{AllocError, Global};

/// The numbers of a row that were met so far, each once. `places` tells where among them a number stands,
/// if it does, so that one look decides whether a number was met. The memory is kept from row to row.
#[derive(Drop)]
pub(crate) struct Firsts {
    pub(crate) kept: Vec<u32>,
    places: Vec<u32>,
}

impl Firsts {
    /// No numbers.
    pub(crate) fn new(alloc: Global) -> Firsts {
        Firsts {
            kept: Vec::new(alloc),
            places: Vec::new(alloc),
        }
    }

    /// Keeps the numbers of a row, all below the limit, each once and in the place of its first, in
    /// place of those that were kept before.
    pub(crate) fn keep(&mut self, row: &[u32], limit: u32) -> Result<(), AllocError>
        requires below { All (λ x. x < limit) row.now }
        requires short { length row.now < 2 ^ 32 }
        ensures { OnOk result (self.new.kept.items ≡ without_repeats row.now) }
    {
        self.kept.clear();
        make_room(&mut self.places, limit as usize)?;
        for x in row {
            self.meet(*x)?;
        }
        Ok(())
    }

    /// Whether a number was met.
    fn has_met(&self, x: u32) -> bool
        requires below { x < vec_len self.now.places }
        requires indexed { IsIndexed self.now.places.items self.now.kept.items }
        ensures { result ≡ list_any (λ y. y == x) self.now.kept.items }
    {
        let place = self.places[x as usize] as usize;
        if place < self.kept.len() {
            self.kept[place] == x
        } else {
            false
        }
    }

    /// Keeps a number unless it was met.
    fn meet(&mut self, x: u32) -> Result<(), AllocError>
        requires below { x < vec_len self.old.places }
        requires short { vec_len self.old.kept + 1 < 2 ^ 32 }
        requires indexed { IsIndexed self.old.places.items self.old.kept.items }
        ensures kept { OnOk result (self.new.kept.items ≡ with_met self.old.kept.items x) }
        ensures indexed { OnOk result (IsIndexed self.new.places.items self.new.kept.items) }
        ensures same_room { vec_len self.new.places ≡ vec_len self.old.places }
        ensures length { OnOk result (vec_len self.new.kept ≤ vec_len self.old.kept + 1) }
    {
        if self.has_met(x) {
            return Ok(());
        }
        self.places[x as usize] = self.kept.len() as u32;
        self.kept.push(x)?;
        Ok(())
    }
}

/// Makes a list at least as long as the limit.
fn make_room(places: &mut Vec<u32>, limit: usize) -> Result<(), AllocError>
    ensures { OnOk result (limit ≤ vec_len places.new) }
{
    while places.len() < limit {
        places.push(0)?;
    }
    Ok(())
}
