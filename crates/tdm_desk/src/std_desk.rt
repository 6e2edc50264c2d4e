//! The desk of real files and the standard output.
ghost use Rattle.std.specs.Prelude.{◌≡◌, ◌≤◌, None, length, IsTrue, IfOk, is_some, false};
ghost use Rattle.tdm_desk.specs.Slots.{at, put};
ghost use Rattle.tdm_desk.specs.Counts.{CountsFaults, CountsReadFault, CountsWriteFault, ReadingFailed, WritingFailed};
ghost use Rattle.tdm_desk.specs.RealDesk.{untouched, seen_of_real, counts_of_real, never};

use crate::calls::{Desk, DeskFault};
use crate::fault_counts::FaultCounts;
use crate::slots::{InSlot, OutSlot, Place, Slots};
use std::fs::OpenFile;
use std::io::{ErrorKind, Read, Write};
use std::marker::Model;
use std::rt::Files;
use std::{fs, io};

/// The desk of the files and the standard output of a runtime.
///
/// It tells none of its bytes, and it is never steady: any call may fail, and raises its count of
/// faults where it does. A count stops at the last value of a `u64`.
#[derive(Drop)]
pub struct StdDesk<R: Files + Print + Drop> {
    runtime: R,
    inputs: Slots<Option<R::File>>,
    outputs: Slots<Option<R::File>>,
    faults: FaultCounts,
}

impl<R: Files + Print + Drop> Model for StdDesk<R> {
    ghost use Rattle.std.specs.Prelude.{is_some};
    ghost use Rattle.tdm_desk.specs.Slots.{map_slots};
    ghost use Rattle.tdm_desk.specs.RealDesk.{RealDesk, real_desk_code};

    ghost Value = { RealDesk };

    ghost coded = { real_desk_code };

    ghost view = { λ desk. record {
      counts = desk.faults;
      inputs = map_slots is_some desk.inputs;
      outputs = map_slots is_some desk.outputs;
    } };
}

impl<R: Files + Print + Drop> StdDesk<R> {
    /// A desk over this runtime, on which nothing is open and no fault was counted.
    pub fn new(runtime: R) -> StdDesk<R>
        ensures { result ≡ untouched }
    {
        StdDesk {
            runtime,
            inputs: Slots {
                first: None,
                second: None,
                third: None,
            },
            outputs: Slots {
                first: None,
                second: None,
                third: None,
            },
            faults: FaultCounts::new(),
        }
    }

    /// Puts an input, or none, at a place.
    fn put_input(&mut self, place: Place, file: Option<R::File>)
        ensures { self.new ≡ record self.old { inputs = put place (is_some file) self.old.inputs } }
    {
        self.inputs.put(place, file);
    }

    /// Puts an output, or none, at a place.
    fn put_output(&mut self, place: Place, file: Option<R::File>)
        ensures { self.new ≡ record self.old { outputs = put place (is_some file) self.old.outputs } }
    {
        self.outputs.put(place, file);
    }

    /// Reads from the input at a place.
    fn read_file(&mut self, place: Place, buf: &mut [u8]) -> io::Result<usize>
        requires { IsTrue (at place self.old.inputs) }
        ensures within { IfOk result (λ count. count ≤ length buf.new) }
        ensures same { self.new ≡ self.old }
    {
        match self.inputs.replace(place, None) {
            Some(mut file) => {
                let answer = file.read(buf);
                self.inputs.put(place, Some(file));
                answer
            }
            None => unreachable!(),
        }
    }

    /// Writes to the output at a place.
    fn write_file(&mut self, place: Place, piece: &[u8]) -> io::Result<usize>
        requires { IsTrue (at place self.old.outputs) }
        ensures within { IfOk result (λ count. count ≤ length piece.now) }
        ensures same { self.new ≡ self.old }
    {
        match self.outputs.replace(place, None) {
            Some(mut file) => {
                let answer = file.write(piece);
                self.outputs.put(place, Some(file));
                answer
            }
            None => unreachable!(),
        }
    }

    /// Asks the system to take the bytes of the output at a place, and closes it.
    fn close_file(&mut self, place: Place) -> io::Result<()>
        requires { IsTrue (at place self.old.outputs) }
        ensures { self.new ≡ record self.old { outputs = put place false self.old.outputs } }
    {
        match self.outputs.replace(place, None) {
            Some(file) => taken_by_the_system(&file),
            None => unreachable!(),
        }
    }

    /// Counts a fault of an input.
    fn count_read_fault(&mut self, slot: InSlot)
        ensures seen { seen_of_real self.new ≡ seen_of_real self.old }
        ensures failed { ReadingFailed counts_of_real never slot self.old self.new }
        ensures own { CountsReadFault counts_of_real slot DeskFault.Failed self.old self.new }
        ensures counted { CountsFaults counts_of_real never self.old self.new }
    {
        self.faults.count_read(slot);
    }

    /// Counts a fault of what is written or said.
    fn count_write_fault(&mut self)
        ensures seen { seen_of_real self.new ≡ seen_of_real self.old }
        ensures failed { WritingFailed counts_of_real never self.old self.new }
        ensures own { CountsWriteFault counts_of_real DeskFault.Failed self.old self.new }
        ensures counted { CountsFaults counts_of_real never self.old self.new }
    {
        self.faults.count_write();
    }
}

/// Asks the system to take the bytes of a file. Of a pipe, a terminal or a device it may be unable to do so,
/// and then nothing is left to take.
fn taken_by_the_system<F: OpenFile>(file: &F) -> io::Result<()> {
    match file.sync_all() {
        Err(error) if has_no_store(error.kind()) => Ok(()),
        answer => answer,
    }
}

/// Whether an error of this kind says that what was written to has no store, so that there is none to wait
/// for.
fn has_no_store(kind: ErrorKind) -> bool {
    matches!(kind, ErrorKind::InvalidInput | ErrorKind::Unsupported)
}

impl<R: Files + Print + Drop> Desk for StdDesk<R> {
    ghost counts = { counts_of_real };

    ghost seen = { seen_of_real };

    ghost steady = { never };

    ghost plan = { λ _. None };

    fn open_input(&mut self, slot: InSlot, name: &str) -> Result<bool, DeskFault> {
        match fs::open(&self.runtime, name) {
            Ok(file) => {
                self.put_input(slot.place(), Some(file));
                Ok(true)
            }
            Err(error) => {
                self.put_input(slot.place(), None);
                if error.kind() == ErrorKind::NotFound {
                    return Ok(false);
                }
                self.count_read_fault(slot);
                Err(DeskFault::Failed)
            }
        }
    }

    fn read(&mut self, slot: InSlot, buf: &mut [u8]) -> Result<usize, DeskFault> {
        match self.read_file(slot.place(), buf) {
            Ok(count) => Ok(count),
            Err(_) => {
                self.count_read_fault(slot);
                Err(DeskFault::Failed)
            }
        }
    }

    fn create(&mut self, slot: OutSlot, name: &str) -> Result<(), DeskFault> {
        match fs::create(&self.runtime, name) {
            Ok(file) => {
                self.put_output(slot.place(), Some(file));
                Ok(())
            }
            Err(_) => {
                self.put_output(slot.place(), None);
                self.count_write_fault();
                Err(DeskFault::Failed)
            }
        }
    }

    fn write(&mut self, slot: OutSlot, piece: &[u8]) -> Result<usize, DeskFault> {
        match self.write_file(slot.place(), piece) {
            Ok(count) if count > 0 => Ok(count),
            _ => {
                self.count_write_fault();
                Err(DeskFault::Failed)
            }
        }
    }

    fn finish(&mut self, slot: OutSlot) -> Result<(), DeskFault> {
        match self.close_file(slot.place()) {
            Ok(()) => Ok(()),
            Err(_) => {
                self.count_write_fault();
                Err(DeskFault::Failed)
            }
        }
    }

    fn say(&mut self, piece: &[u8]) -> Result<usize, DeskFault> {
        match self.runtime.write_some(piece) {
            Ok(count) if count > 0 => Ok(count),
            _ => {
                self.count_write_fault();
                Err(DeskFault::Failed)
            }
        }
    }
}
