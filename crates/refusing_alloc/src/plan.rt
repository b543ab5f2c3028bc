//! The counts, and which growths are refused.

ghost use Rattle.std.specs.Prelude.{◌<◌, ◌^◌};

use std::cell::Cell;

/// Refuses the growths from number `first` to number `last`, where the first growth is 1. With
/// `first` above `last` it refuses none.
///
/// A count stays at its largest value once it is there.
#[derive(Drop)]
pub(crate) struct Plan {
    first: Cell<u64>,
    last: Cell<u64>,
    growths: Cell<u32>,
    refusals: Cell<u32>,
    blocks: Cell<u32>,
}

impl Plan {
    /// A plan with nothing counted.
    pub(crate) fn new(first: u64, last: u64) -> Plan {
        Plan {
            first: Cell::new(first),
            last: Cell::new(last),
            growths: Cell::new(0),
            refusals: Cell::new(0),
            blocks: Cell::new(0),
        }
    }

    /// Refuses other growths, and counts growths and refusals anew. The blocks that are out stay
    /// counted.
    pub(crate) fn restart(&self, first: u64, last: u64) {
        self.first.set(first);
        self.last.set(last);
        self.growths.set(0);
        self.refusals.set(0);
    }

    /// Counts a growth, and says whether it is refused. One that is not is counted as a block.
    pub(crate) fn refuses(&self) -> bool {
        let growth = self.growths.get().saturating_add(1);
        self.growths.set(growth);
        let growth = u64::from(growth);
        if self.first.get() <= growth && growth <= self.last.get() {
            self.refusals.set(self.refusals.get().saturating_add(1));
            true
        } else {
            self.blocks.set(self.blocks.get().saturating_add(1));
            false
        }
    }

    /// Counts a block that is given back.
    pub(crate) fn takes_back(&self) {
        self.blocks.set(self.blocks.get().saturating_sub(1));
    }

    pub(crate) fn growths(&self) -> u64
        ensures { result < 2 ^ 32 }
    {
        u64::from(self.growths.get())
    }

    pub(crate) fn refusals(&self) -> u64
        ensures { result < 2 ^ 32 }
    {
        u64::from(self.refusals.get())
    }

    pub(crate) fn blocks(&self) -> u64
        ensures { result < 2 ^ 32 }
    {
        u64::from(self.blocks.get())
    }
}
