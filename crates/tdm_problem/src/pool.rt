//! Rows of numbers that change their length, kept in one list.
ghost use Rattle.std.specs.Prelude.{◌≡◌, ◌<◌, ◌≤◌, ◌+◌, [], ◌∷◌, ◌++◌, length, take, drop, slice_get, slice_index_or, slice_set, Some, IfOk, OnOk, OnErr};
ghost use Rattle.tdm_problem.specs.Pool.{row_at, IsAppended, IsRoomy};

use std::alloc::{AllocError, Global};
use std::marker::Model;

/// Where a row stands in the pool: from a place on, so long, with room for at least as much.
#[derive(Clone, Copy)]
pub(crate) struct Spot {
    pub(crate) place: usize,
    pub(crate) length: usize,
    pub(crate) room: usize,
}

/// A list of rows. All items stand in one list, where no two rows share a place. A row that outgrows its room
/// moves to the end.
#[derive(Drop)]
pub(crate) struct Pool {
    items: Vec<u32>,
    spots: Vec<Spot>,
}

impl Model for Pool {
    ghost use Rattle.std.specs.Prelude.{List, ℕ};
    ghost use Rattle.tdm_problem.specs.Pool.{rows_at, IsPool};

    ghost Value = { List (List ℕ) };

    ghost view = { λ p. rows_at p.items.items p.spots.items };

    ghost invariant = { λ p. IsPool p.items.items p.spots.items };
}

impl Pool {
    /// No rows.
    pub(crate) fn new(alloc: Global) -> Pool
        ensures { result ≡ [] }
    {
        Pool {
            items: Vec::new(alloc),
            spots: Vec::new(alloc),
        }
    }

    /// How many rows there are.
    pub(crate) fn rows(&self) -> usize
        ensures { result ≡ length self.now }
    {
        self.spots.len()
    }

    /// Row `i`, counted from 0.
    pub(crate) fn row(&self, i: usize) -> &[u32]
        requires { i < length self.now }
        ensures there { slice_get self.now i ≡ Some result.now }
        ensures value { slice_index_or self.now i [] ≡ result.now }
    {
        let spot = self.spots[i];
        row_of(&self.items, spot)
    }

    /// Adds a row after the others. They are unchanged where memory is wanting.
    pub(crate) fn push_row(&mut self, row: &[u32]) -> Result<(), AllocError>
        ensures ok { OnOk result (self.new ≡ self.old ++ row.now ∷ []) }
        ensures err { OnErr result (self.new ≡ self.old) }
    {
        let before = self.items.len();
        let spot = append(&mut self.items, row)?;
        if self.spots.push(spot).is_err() {
            self.items.truncate(before);
            return Err(AllocError);
        }
        Ok(())
    }

    /// Puts another row in the place of row `i`. All rows are unchanged where memory is wanting.
    pub(crate) fn replace(&mut self, i: usize, row: &[u32]) -> Result<(), AllocError>
        requires { i < length self.old }
        ensures ok { OnOk result (self.new ≡ slice_set self.old i row.now) }
        ensures err { OnErr result (self.new ≡ self.old) }
    {
        let Spot { place, room, .. } = self.spots[i];
        if row.len() <= room {
            write_row(&mut self.items, place, row);
            let length = row.len();
            self.spots[i] = Spot {
                place,
                length,
                room,
            };
            return Ok(());
        }
        self.spots[i] = append(&mut self.items, row)?;
        Ok(())
    }

    /// The same rows in memory of their own.
    pub(crate) fn copy(&self, alloc: Global) -> Result<Pool, AllocError>
        ensures { IfOk result (λ pool. pool ≡ self.now) }
    {
        let items = Vec::from_slice(alloc, &self.items)?;
        let spots = Vec::from_slice(alloc, &self.spots)?;
        Ok(Pool { items, spots })
    }
}

/// The row at a spot.
fn row_of(items: &[u32], spot: Spot) -> &[u32]
    requires { IsRoomy items.now spot }
    ensures { result.now ≡ row_at items.now spot }
{
    &items[spot.place..spot.place + spot.length]
}

/// Writes a row over the items from a place on.
fn write_row(items: &mut [u32], place: usize, row: &[u32])
    requires { place + length row.now ≤ length items.old }
    ensures written { items.new ≡ take place items.old
        ++ (row.now ++ drop (place + length row.now) items.old) }
    ensures size { length items.new ≡ length items.old }
{
    items[place..place + row.len()].copy_from_slice(row);
}

/// Puts a row behind the items, with one spare place. The items are unchanged where memory is wanting.
fn append(items: &mut Vec<u32>, row: &[u32]) -> Result<Spot, AllocError>
    ensures spot { IfOk result (λ spot. IsAppended items.old.items row.now items.new.items spot) }
    ensures err { OnErr result (items.new.items ≡ items.old.items) }
{
    let place = items.len();
    items.extend_from_slice(row)?;
    if items.push(0).is_err() {
        items.truncate(place);
        return Err(AllocError);
    }
    Ok(Spot {
        place,
        length: row.len(),
        room: row.len() + 1,
    })
}
