//! How many faults a desk has met.
ghost use Rattle.std.specs.Prelude.{◌≡◌};
ghost use Rattle.tdm_desk.specs.Counts.{no_faults, one_more, read_counted, write_counted};

use crate::slots::{InSlot, Slots};
use std::marker::Model;

/// The counts of a desk's faults. A count stops at the last value of a `u64`.
#[derive(Drop)]
pub struct FaultCounts {
    reading: Slots<u64>,
    writing: u64,
}

impl Model for FaultCounts {
    ghost use Rattle.tdm_desk.specs.Counts.{Counts, counts_code};

    ghost Value = { Counts };

    ghost coded = { counts_code };

    ghost view = { λ counts. record { reading = counts.reading; writing = counts.writing } };
}

impl FaultCounts {
    /// No faults.
    pub fn new() -> FaultCounts
        ensures { result ≡ no_faults }
    {
        FaultCounts {
            reading: Slots {
                first: 0,
                second: 0,
                third: 0,
            },
            writing: 0,
        }
    }

    /// Counts a fault of an input.
    pub fn count_read(&mut self, slot: InSlot)
        ensures { self.new ≡ read_counted slot self.old }
    {
        let place = slot.place();
        let count = raised(*self.reading.get(place));
        self.reading.put(place, count);
    }

    /// Counts a fault of what is written or said.
    pub fn count_write(&mut self)
        ensures { self.new ≡ write_counted self.old }
    {
        self.writing = raised(self.writing);
    }
}

/// One more, or the same where the count stands at its last value.
#[tactic(auto, unfolding(crate::specs::Counts::one_more, crate::specs::Counts::last_count))]
fn raised(count: u64) -> u64
    ensures { result ≡ one_more count }
{
    if count < u64::MAX { count + 1 } else { count }
}
