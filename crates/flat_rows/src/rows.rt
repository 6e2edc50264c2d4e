//! Rows of items, kept one after another in one list.
ghost use Rattle.std.specs.Prelude.{◌≡◌, ◌<◌, ◌≤◌, [], ◌∷◌, ◌++◌, length, slice_get, slice_index_or, slice_range, slice_set, Some, IfOk, OnOk, OnErr};
ghost use Rattle.flat_rows.specs.Rows.{start_of_row};

use std::alloc::{AllocError, Global};
use std::marker::Model;

/// A list of rows that grows at its end. All items stand in one list, and beside it the end of each row.
#[derive(Drop)]
pub struct FlatRows<T: Copy> {
    items: Vec<T>,
    ends: Vec<usize>,
}

impl<T: Copy> Model for FlatRows<T> {
    ghost use Rattle.std.specs.Prelude.{List};
    ghost use Rattle.flat_rows.specs.Rows.{rows_from, IsCutFrom};

    ghost Value = { List (List T) };

    ghost view = { λ r. rows_from 0 r.ends.items r.items.items };

    ghost invariant = { λ r. IsCutFrom 0 r.ends.items r.items.items };
}

impl<T: Copy> FlatRows<T> {
    /// No rows.
    pub fn new(alloc: Global) -> FlatRows<T>
        ensures { result ≡ [] }
    {
        FlatRows {
            items: Vec::new(alloc),
            ends: Vec::new(alloc),
        }
    }

    /// How many rows there are.
    pub fn rows(&self) -> usize
        ensures { result ≡ length self.now }
    {
        self.ends.len()
    }

    /// Adds a row after the others. They are unchanged where memory is wanting.
    pub fn push_row(&mut self, row: &[T]) -> Result<(), AllocError>
        ensures ok { OnOk result (self.new ≡ self.old ++ row.now ∷ []) }
        ensures err { OnErr result (self.new ≡ self.old) }
    {
        let before = self.items.len();
        self.items.extend_from_slice(row)?;
        if self.ends.push(self.items.len()).is_err() {
            self.items.truncate(before);
            return Err(AllocError);
        }
        Ok(())
    }

    /// Row `i`, counted from 0.
    pub fn row(&self, i: usize) -> &[T]
        requires { i < length self.now }
        ensures there { slice_get self.now i ≡ Some result.now }
        ensures value { slice_index_or self.now i [] ≡ result.now }
    {
        let start = start_of(&self.ends, i);
        between(&self.items, start, self.ends[i])
    }

    /// Writes an item over the one at a place of row `i`.
    pub fn set(&mut self, i: usize, place: usize, item: T)
        requires row_there { i < length self.old }
        requires place_there { place < length (slice_index_or self.old i []) }
        ensures { self.new ≡ slice_set self.old i (slice_set (slice_index_or self.old i []) place item) }
    {
        let start = start_of(&self.ends, i);
        self.items[start + place] = item;
    }

    /// The same rows in memory of their own.
    pub fn copy(&self, alloc: Global) -> Result<FlatRows<T>, AllocError>
        ensures { IfOk result (λ rows. rows ≡ self.now) }
    {
        let items = Vec::from_slice(alloc, &self.items)?;
        let ends = Vec::from_slice(alloc, &self.ends)?;
        Ok(FlatRows { items, ends })
    }
}

/// Where row `i` begins among the items: at the end of the row before it.
fn start_of(ends: &[usize], i: usize) -> usize
    requires { i < length ends.now }
    ensures { result ≡ start_of_row 0 ends.now i }
{
    if i == 0 { 0 } else { ends[i - 1] }
}

/// The items from a start to an end.
fn between<T>(items: &[T], start: usize, end: usize) -> &[T]
    requires rises { start ≤ end }
    requires within { end ≤ length items.now }
    ensures { result.now ≡ slice_range items.now start end }
{
    &items[start..end]
}
