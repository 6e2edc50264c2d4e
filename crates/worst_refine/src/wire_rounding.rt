//! How the ratios on one wire are rounded to even numbers.
use crate::spending::WHOLE;
use std::alloc::{AllocError, Global};

/// Halves of ratios stand in so many classes, by the part that is over the whole number.
pub(crate) const CLASSES: u32 = 64;

/// Halves of ratios from here on are rounded up without a look at what their place in between would save.
pub(crate) const MOST_LOWERED: u32 = 4096;

/// The reciprocals of small even ratios in units of 2^-64, rounded up, each at the half of its ratio.
#[derive(Drop)]
pub(crate) struct Costs {
    known: Vec<u64>,
}

impl Costs {
    /// The reciprocals of the even ratios up to twice [`MOST_LOWERED`].
    pub(crate) fn new(alloc: Global) -> Result<Costs, AllocError> {
        let mut known = Vec::with_capacity(alloc, MOST_LOWERED as usize + 1)?;
        for half in 0..MOST_LOWERED + 1 {
            known.push(cost_of(half))?;
        }
        Ok(Costs { known })
    }

    /// The reciprocal of the even ratio with this half.
    pub(crate) fn of(&self, half: u32) -> u64 {
        match self.known.as_slice().get(half as usize) {
            Some(cost) => *cost,
            None => cost_of(half),
        }
    }
}

/// The reciprocal of the even ratio with this half in units of 2^-64, rounded up.
fn cost_of(half: u32) -> u64 {
    let ratio = 2 * u64::from(half).max(1);
    (u64::MAX / ratio).saturating_add(1)
}

/// What the even ratios below would cost a wire more than those above, class by class.
#[derive(Clone, Copy)]
pub(crate) struct ClassCosts {
    more: [u64; 64],
}

impl ClassCosts {
    /// No uses yet.
    pub(crate) fn new() -> ClassCosts {
        ClassCosts { more: [0; 64] }
    }
}

/// What the uses of a wire cost at the even ratios above, and then how many classes are lowered and what room
/// is left. It stands apart from [`ClassCosts`], since the second sweep needs it alone.
#[derive(Clone, Copy)]
pub(crate) struct WireRounding {
    spent: u128,
    room: u64,
    lowered: u32,
}

impl WireRounding {
    /// No uses yet.
    pub(crate) fn new() -> WireRounding {
        WireRounding {
            spent: 0,
            room: 0,
            lowered: 0,
        }
    }

    /// Reckons a use whose half of the ratio is so many 64ths, at the even ratio above.
    pub(crate) fn reckon(&mut self, classes: &mut ClassCosts, costs: &Costs, parts: u32) {
        let half = parts / CLASSES;
        let class = (parts % CLASSES) as usize;
        let cost = costs.of(half.saturating_add(1));
        self.spent = self.spent.wrapping_add(u128::from(cost));
        if half > 0 && half < MOST_LOWERED {
            let more = costs.of(half).saturating_sub(cost);
            classes.more[class] = classes.more[class].saturating_add(more);
        }
    }

    /// Lowers whole classes to the even ratio below, the least parts first, as far as there is room. Answers
    /// false where the even ratios above do not fit the wire.
    pub(crate) fn lower_classes(&mut self, classes: &ClassCosts) -> bool {
        if self.spent > WHOLE {
            return false;
        }
        self.room = (WHOLE - self.spent).min(u128::from(u64::MAX)) as u64;
        self.lowered = 0;
        for class in 0..64u32 {
            let more = classes.more[class as usize];
            if more > self.room {
                return true;
            }
            self.room -= more;
            self.lowered = class + 1;
        }
        true
    }

    /// The half of the even ratio for a use that was reckoned with so many 64ths: the one below where its
    /// class is lowered, and also in the next class as long as there is room.
    pub(crate) fn rounded_half(&mut self, costs: &Costs, parts: u32) -> u32 {
        let half = parts / CLASSES;
        let class = parts % CLASSES;
        let above = half.saturating_add(1);
        if half == 0 || half >= MOST_LOWERED || class > self.lowered {
            return above;
        }
        if class < self.lowered {
            return half;
        }
        let more = costs.of(half).saturating_sub(costs.of(above));
        if more > self.room {
            return above;
        }
        self.room -= more;
        half
    }
}
