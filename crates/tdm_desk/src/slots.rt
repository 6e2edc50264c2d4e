//! The places where inputs and outputs stand: three of each.
#![tactic(auto, unfolding(crate::specs::Slots::input_place, crate::specs::Slots::output_place, crate::specs::Slots::at, crate::specs::Slots::put))]

ghost use Rattle.std.specs.Prelude.{◌≡◌};
ghost use Rattle.tdm_desk.specs.Slots.{at, put, input_place, output_place};

use std::mem;

/// The place of an input.
#[derive(Clone, Copy, Debug, PartialEq, Eq)]
pub enum InSlot {
    In0,
    In1,
    In2,
}

/// The place of an output.
#[derive(Clone, Copy, Debug, PartialEq, Eq)]
pub enum OutSlot {
    Out0,
    Out1,
    Out2,
}

/// One of three places.
#[derive(Clone, Copy)]
pub enum Place {
    First,
    Second,
    Third,
}

/// A value for each of three places.
#[derive(Drop)]
pub struct Slots<T> {
    pub first: T,
    pub second: T,
    pub third: T,
}

impl InSlot {
    /// The place of this input among the inputs.
    pub(crate) fn place(self) -> Place
        ensures { result ≡ input_place self }
    {
        match self {
            InSlot::In0 => Place::First,
            InSlot::In1 => Place::Second,
            InSlot::In2 => Place::Third,
        }
    }
}

impl OutSlot {
    /// The place of this output among the outputs.
    pub(crate) fn place(self) -> Place
        ensures { result ≡ output_place self }
    {
        match self {
            OutSlot::Out0 => Place::First,
            OutSlot::Out1 => Place::Second,
            OutSlot::Out2 => Place::Third,
        }
    }
}

impl<T> Slots<T> {
    /// What stands at a place.
    pub fn get(&self, place: Place) -> &T
        ensures { result.now ≡ at place self.now }
    {
        match place {
            Place::First => &self.first,
            Place::Second => &self.second,
            Place::Third => &self.third,
        }
    }

    /// Puts a value at a place, and hands out what stood there.
    pub fn replace(&mut self, place: Place, value: T) -> T
        ensures before { result ≡ at place self.old }
        ensures after { self.new ≡ put place value self.old }
    {
        match place {
            Place::First => mem::replace(&mut self.first, value),
            Place::Second => mem::replace(&mut self.second, value),
            Place::Third => mem::replace(&mut self.third, value),
        }
    }
}

impl<T: Drop> Slots<T> {
    /// Puts a value at a place.
    pub fn put(&mut self, place: Place, value: T)
        ensures { self.new ≡ put place value self.old }
    {
        let _before = self.replace(place, value);
    }
}
