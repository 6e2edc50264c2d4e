//! Files, open slots and what was said, in memory.
ghost use Rattle.std.specs.Prelude.{◌≡◌, ◌≤◌, ◌<◌, ◌↔◌, [], length, min, take, drop, string_bytes, option_map, if◌then◌else◌, IsTrue, IsSome, OnOk, OnErr, IfOk};
ghost use Rattle.std.specs.Option.{ForSome, option_copied};
ghost use Rattle.std.specs.FinMap.{contains_key};
ghost use Rattle.std.specs.FinMap as map;
ghost use Rattle.tdm_desk.specs.Files.{with_file, with_more};
ghost use Rattle.tdm_desk.specs.Slots.{at, put};
ghost use Rattle.tdm_desk.specs.Seen.{opened, input_closed, taken, created, output_closed, written, said, input_is_open, output_is_open, files_of, rest_of};
ghost use Rattle.tdm_desk.specs.Memory.{empty_memory, seen_in_memory};

use crate::file_table::FileTable;
use crate::open_input::OpenInput;
use crate::slots::{InSlot, OutSlot, Place, Slots};
use std::alloc::{AllocError, Global};
use std::marker::Model;

/// The files of a desk in memory, its open slots, and what was said to it.
#[derive(Drop)]
pub struct MemoryStore {
    files: FileTable,
    inputs: Slots<Option<OpenInput>>,
    outputs: Slots<Option<String>>,
    report: Vec<u8>,
    alloc: Global,
}

impl Model for MemoryStore {
    ghost use Rattle.std.specs.Prelude.{option_map, string_bytes};
    ghost use Rattle.tdm_desk.specs.Slots.{map_slots};
    ghost use Rattle.tdm_desk.specs.Memory.{Memory, memory_code};

    ghost Value = { Memory };

    ghost coded = { memory_code };

    ghost view = { λ desk. record {
      files = desk.files;
      inputs = desk.inputs;
      outputs = map_slots (option_map string_bytes) desk.outputs;
      said = desk.report.items;
    } };
}

impl MemoryStore {
    /// A desk with no files, on which nothing is open and nothing was said.
    pub fn new(alloc: Global) -> MemoryStore
        ensures { result ≡ empty_memory }
    {
        MemoryStore {
            files: FileTable::new(alloc),
            inputs: Slots {
                first: None,
                second: None,
                third: None,
            },
            outputs: Slots {
                first: None,
                second: None,
                third: None,
            },
            report: Vec::new(alloc),
            alloc,
        }
    }

    /// Makes the file of this name hold these bytes. Where memory is wanting, nothing changes.
    pub fn put_file(&mut self, name: &str, bytes: &[u8]) -> Result<(), AllocError>
        ensures ok { OnOk result (self.new ≡ record self.old {
          files =
              with_file name.now bytes.now self.old.files;
        }) }
        ensures err { OnErr result (self.new ≡ self.old) }
    {
        self.files.put(name, bytes)
    }

    /// What the file of this name holds, and None where there is no such file.
    pub fn file(&self, name: &str) -> Option<&[u8]>
        ensures { option_copied result ≡ map.get self.now.files name.now }
    {
        self.files.get(name)
    }

    /// All that was said so far.
    pub fn report(&self) -> &[u8]
        ensures { result.now ≡ self.now.said }
    {
        self.report.as_slice()
    }

    /// The input that the file of this name gives, and None where there is no such file.
    fn input_of(&self, name: &str) -> Result<Option<OpenInput>, AllocError>
        ensures { IfOk result (λ input. input ≡ map.get self.now.files name.now) }
    {
        match self.files.get(name) {
            Some(bytes) => Ok(Some(OpenInput::new(self.alloc, bytes)?)),
            None => Ok(None),
        }
    }

    /// Puts an input, or none, at a place.
    fn put_input(&mut self, place: Place, input: Option<OpenInput>)
        ensures { self.new ≡ record self.old { inputs = put place input self.old.inputs } }
    {
        self.inputs.put(place, input);
    }

    /// Lets the input at a place give its next bytes to the front of `buf`, and answers how many.
    fn give(&mut self, place: Place, buf: &mut [u8]) -> usize
        requires { IsSome (at place self.old.inputs) }
        ensures count { ForSome (at place self.old.inputs) (λ rest. result
            ≡ min (length buf.new) (length rest)) }
        ensures bytes { ForSome (at place self.old.inputs) (λ rest. take result buf.new ≡ take result rest) }
        ensures rest { ForSome (at place self.old.inputs) (λ rest.
            self.new ≡ record self.old { inputs = put place (Some (drop result rest)) self.old.inputs }) }
    {
        match self.inputs.replace(place, None) {
            Some(mut input) => {
                let count = input.give(buf);
                self.inputs.put(place, Some(input));
                count
            }
            None => unreachable!(),
        }
    }

    /// Puts the name of an open output, or none, at a place.
    fn put_output(&mut self, place: Place, name: Option<String>)
        ensures { self.new ≡ record self.old {
          outputs = put place (option_map string_bytes name) self.old.outputs;
        } }
    {
        self.outputs.put(place, name);
    }

    /// Adds bytes to the file of the output at a place.
    fn append(&mut self, place: Place, more: &[u8]) -> Result<(), AllocError>
        requires { IsSome (at place self.old.outputs) }
        ensures ok { OnOk result (ForSome (at place self.old.outputs) (λ name.
            self.new ≡ record self.old { files = with_more name more.now self.old.files })) }
        ensures err { OnErr result (self.new ≡ self.old) }
    {
        match self.outputs.get(place) {
            Some(name) => self.files.append(name.as_str(), more),
            None => unreachable!(),
        }
    }

    /// Opens the file of this name as an input, and answers whether there is one. Where there is none, or
    /// memory is wanting, the slot is closed.
    pub fn open_input(&mut self, slot: InSlot, name: &str) -> Result<bool, AllocError>
        ensures ok { IfOk result (λ found. seen_in_memory self.new ≡
            (if found then opened slot name.now (seen_in_memory self.old) else input_closed slot
            (seen_in_memory self.old))) }
        ensures found { IfOk result (λ found. ForSome (files_of (seen_in_memory self.old))
            (λ files. found ≡ contains_key files name.now)) }
        ensures err { OnErr result (seen_in_memory self.new ≡ input_closed slot (seen_in_memory self.old)) }
    {
        match self.input_of(name) {
            Ok(input) => {
                let found = input.is_some();
                self.put_input(slot.place(), input);
                Ok(found)
            }
            Err(wanting) => {
                self.put_input(slot.place(), None);
                Err(wanting)
            }
        }
    }

    /// Closes an input.
    pub fn close_input(&mut self, slot: InSlot)
        ensures { seen_in_memory self.new ≡ input_closed slot (seen_in_memory self.old) }
    {
        self.put_input(slot.place(), None);
    }

    /// Gives the next bytes of an open input to the front of `buf`, and answers how many.
    pub fn read(&mut self, slot: InSlot, buf: &mut [u8]) -> usize
        requires is_open { IsTrue (input_is_open slot (seen_in_memory self.old)) }
        requires has_room { 0 < length buf.old }
        ensures within { result ≤ length buf.new }
        ensures ok { seen_in_memory self.new ≡ taken slot result (seen_in_memory self.old) }
        ensures bytes { ForSome (rest_of slot (seen_in_memory self.old))
            (λ rest. take result buf.new ≡ take result rest) }
        ensures end { ForSome (rest_of slot (seen_in_memory self.old))
            (λ rest. (result ≡ 0) ↔ (rest ≡ [])) }
    {
        self.give(slot.place(), buf)
    }

    /// Makes the file of this name empty, and opens it as an output. Where memory is wanting, the files are
    /// as they were, and the slot is closed.
    pub fn create(&mut self, slot: OutSlot, name: &str) -> Result<(), AllocError>
        ensures ok { OnOk result (seen_in_memory self.new ≡ created slot name.now (seen_in_memory self.old)) }
        ensures err { OnErr result (seen_in_memory self.new ≡ output_closed slot (seen_in_memory self.old)) }
    {
        self.put_output(slot.place(), None);
        let kept = String::from_str(self.alloc, name)?;
        self.put_file(name, &[])?;
        self.put_output(slot.place(), Some(kept));
        Ok(())
    }

    /// Adds bytes to the file of an open output. Where memory is wanting, nothing changes.
    pub fn write(&mut self, slot: OutSlot, piece: &[u8]) -> Result<(), AllocError>
        requires { IsTrue (output_is_open slot (seen_in_memory self.old)) }
        ensures ok { OnOk result (seen_in_memory self.new
            ≡ written slot piece.now (seen_in_memory self.old)) }
        ensures err { OnErr result (self.new ≡ self.old) }
    {
        self.append(slot.place(), piece)?;
        Ok(())
    }

    /// Closes an output.
    pub fn close_output(&mut self, slot: OutSlot)
        ensures { seen_in_memory self.new ≡ output_closed slot (seen_in_memory self.old) }
    {
        self.put_output(slot.place(), None);
    }

    /// Keeps more bytes that were said. Where memory is wanting, nothing changes.
    pub fn say(&mut self, piece: &[u8]) -> Result<(), AllocError>
        ensures ok { OnOk result (seen_in_memory self.new ≡ said piece.now (seen_in_memory self.old)) }
        ensures err { OnErr result (self.new ≡ self.old) }
    {
        self.report.extend_from_slice(piece)?;
        Ok(())
    }
}
