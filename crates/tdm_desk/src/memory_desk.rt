//! A desk in memory, for tests and trials, whose every byte and every fault the contracts know.
ghost use Rattle.std.specs.Prelude.{◌≡◌, ◌<◌, ◌++◌, [], ◌∷◌, false, Some, IsTrue, OnOk, OnErr};
ghost use Rattle.std.specs.Option.{option_copied};
ghost use Rattle.std.specs.FinMap as map;
ghost use Rattle.tdm_desk.specs.Files.{with_file};
ghost use Rattle.tdm_desk.specs.Memory.{empty_memory, seen_in_memory};
ghost use Rattle.tdm_desk.specs.Counts.{no_faults, read_counted, write_counted};
ghost use Rattle.tdm_desk.specs.Plan.{fails_next, after_reading, after_writing, NoneToCome};

use crate::calls::{Desk, DeskFault};
use crate::fault_counts::FaultCounts;
use crate::memory_store::MemoryStore;
use crate::plan::{PieceLimit, Plan};
use crate::slots::{InSlot, OutSlot};
use std::alloc::{AllocError, Global};

/// A desk in memory. It tells its bytes, and just those of its calls answer `DeskFault::Failed` that were
/// planned to. It is steady where no planned failure is still to come.
#[derive(Drop)]
pub struct MemoryDesk {
    memory: MemoryStore,
    plan: Plan,
    faults: FaultCounts,
}

impl MemoryDesk {
    /// A desk with no files, on which nothing is open, nothing was said, no failure is planned and pieces
    /// have no bound.
    pub fn new(alloc: Global) -> MemoryDesk
        ensures memory { result.memory ≡ empty_memory }
        ensures plan { NoneToCome result.plan }
        ensures most { result.plan.most ≡ usize.MAX }
        ensures faults { result.faults ≡ no_faults }
    {
        MemoryDesk {
            memory: MemoryStore::new(alloc),
            plan: Plan::new(alloc),
            faults: FaultCounts::new(),
        }
    }

    /// Makes the file of this name hold these bytes. Where memory is wanting, nothing changes.
    pub fn put_file(&mut self, name: &str, bytes: &[u8]) -> Result<(), AllocError>
        ensures ok { OnOk result (self.new ≡ record self.old {
          memory = record self.old.memory { files = with_file name.now bytes.now self.old.memory.files };
        }) }
        ensures err { OnErr result (self.new ≡ self.old) }
    {
        self.memory.put_file(name, bytes)
    }

    /// What the file of this name holds, and None where there is no such file.
    pub fn file(&self, name: &str) -> Option<&[u8]>
        ensures { option_copied result ≡ map.get self.now.memory.files name.now }
    {
        self.memory.file(name)
    }

    /// All that was said so far.
    pub fn report(&self) -> &[u8]
        ensures { result.now ≡ self.now.memory.said }
    {
        self.memory.report()
    }

    /// Makes one later call fail: the one that comes as the `calls`-th from now, counted over those that open
    /// or read an input. It may be called several times. Where memory is wanting, nothing changes.
    pub fn fail_read(&mut self, calls: u64) -> Result<(), AllocError>
        requires { 0 < calls }
        ensures ok { OnOk result (self.new ≡ record self.old {
          plan = record self.old.plan { reading = self.old.plan.reading ++ calls ∷ [] };
        }) }
        ensures err { OnErr result (self.new ≡ self.old) }
    {
        self.plan.reading.add(calls)
    }

    /// Makes one later call fail: the one that comes as the `calls`-th from now, counted over those that
    /// create, write, finish or say. It may be called several times. Where memory is wanting, nothing
    /// changes.
    pub fn fail_write(&mut self, calls: u64) -> Result<(), AllocError>
        requires { 0 < calls }
        ensures ok { OnOk result (self.new ≡ record self.old {
          plan = record self.old.plan { writing = self.old.plan.writing ++ calls ∷ [] };
        }) }
        ensures err { OnErr result (self.new ≡ self.old) }
    {
        self.plan.writing.add(calls)
    }

    /// Bounds each later read, write and say to so many bytes.
    pub fn set_piece(&mut self, most: usize)
        requires { 0 < most }
        ensures { self.new ≡ record self.old { plan = record self.old.plan { most = most } } }
    {
        self.plan.most = PieceLimit::new(most);
    }

    /// Whether the call on an input that is made now is planned to fail. If it is, its fault is counted.
    fn fails_reading(&mut self, slot: InSlot) -> bool
        ensures answer { result ≡ fails_next self.old.plan.reading }
        ensures memory { self.new.memory ≡ self.old.memory }
        ensures plan { self.new.plan ≡ after_reading self.old.plan }
        ensures met { IsTrue result → self.new.faults ≡ read_counted slot self.old.faults }
        ensures not_met { result ≡ false → self.new.faults ≡ self.old.faults }
    {
        let fails = self.plan.reading.next_call();
        if fails {
            self.faults.count_read(slot);
        }
        fails
    }

    /// Whether the call that writes or says and is made now is planned to fail. If it is, its fault is
    /// counted.
    fn fails_writing(&mut self) -> bool
        ensures answer { result ≡ fails_next self.old.plan.writing }
        ensures memory { self.new.memory ≡ self.old.memory }
        ensures plan { self.new.plan ≡ after_writing self.old.plan }
        ensures met { IsTrue result → self.new.faults ≡ write_counted self.old.faults }
        ensures not_met { result ≡ false → self.new.faults ≡ self.old.faults }
    {
        let fails = self.plan.writing.next_call();
        if fails {
            self.faults.count_write();
        }
        fails
    }
}

impl Desk for MemoryDesk {
    ghost counts = { λ desk. desk.faults };

    ghost seen = { λ desk. seen_in_memory desk.memory };

    ghost steady = { λ desk. NoneToCome desk.plan };

    ghost plan = { λ desk. Some desk.plan };

    fn open_input(&mut self, slot: InSlot, name: &str) -> Result<bool, DeskFault> {
        if self.fails_reading(slot) {
            self.memory.close_input(slot);
            return Err(DeskFault::Failed);
        }
        let found = self.memory.open_input(slot, name)?;
        Ok(found)
    }

    fn read(&mut self, slot: InSlot, buf: &mut [u8]) -> Result<usize, DeskFault> {
        if self.fails_reading(slot) {
            return Err(DeskFault::Failed);
        }
        let most = self.plan.most.of(buf.len());
        Ok(self.memory.read(slot, &mut buf[..most]))
    }

    fn create(&mut self, slot: OutSlot, name: &str) -> Result<(), DeskFault> {
        if self.fails_writing() {
            self.memory.close_output(slot);
            return Err(DeskFault::Failed);
        }
        self.memory.create(slot, name)?;
        Ok(())
    }

    fn write(&mut self, slot: OutSlot, piece: &[u8]) -> Result<usize, DeskFault> {
        if self.fails_writing() {
            return Err(DeskFault::Failed);
        }
        let count = self.plan.most.of(piece.len());
        self.memory.write(slot, &piece[..count])?;
        Ok(count)
    }

    fn finish(&mut self, slot: OutSlot) -> Result<(), DeskFault> {
        let fails = self.fails_writing();
        self.memory.close_output(slot);
        if fails {
            return Err(DeskFault::Failed);
        }
        Ok(())
    }

    fn say(&mut self, piece: &[u8]) -> Result<usize, DeskFault> {
        if self.fails_writing() {
            return Err(DeskFault::Failed);
        }
        let count = self.plan.most.of(piece.len());
        self.memory.say(&piece[..count])?;
        Ok(count)
    }
}
