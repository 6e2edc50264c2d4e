//! Files in memory, in a list that is searched from its front.
ghost use Rattle.std.specs.Prelude.{◌≡◌, ◌≢◌, ◌<◌, string_bytes, length, OnOk, OnErr, IfSome, IfNone, All};
ghost use Rattle.std.specs.Option.{option_copied};
ghost use Rattle.std.specs.List.{HoldsAt, AllWithin};
ghost use Rattle.std.specs.FinMap as map;
ghost use Rattle.tdm_desk.specs.Files.{with_file, with_more};

use std::alloc::{AllocError, Global};
use std::marker::Model;

/// A file in memory.
#[derive(Drop)]
pub struct NamedFile {
    pub name: String,
    pub bytes: Vec<u8>,
}

/// Files in memory, each with a name of its own.
#[derive(Drop)]
pub struct FileTable {
    entries: Vec<NamedFile>,
    alloc: Global,
}

impl Model for FileTable {
    ghost use Rattle.std.specs.FinMap as map;
    ghost use Rattle.std.specs.Coded.{coded_ℕ, coded_list};
    ghost use Rattle.tdm_desk.specs.Files.{Files};

    ghost Value = { Files };

    ghost coded = { map.code (coded_list coded_ℕ) (coded_list coded_ℕ) };

    ghost use Rattle.tdm_desk.specs.FileTable.{files_in};

    ghost view = { λ table. files_in table.entries.items };
}

impl FileTable {
    /// No files.
    pub fn new(alloc: Global) -> FileTable
        ensures { result ≡ map.empty }
    {
        FileTable {
            entries: Vec::new(alloc),
            alloc,
        }
    }

    /// What the file of this name holds, and None where there is no such file.
    pub fn get(&self, name: &str) -> Option<&[u8]>
        ensures { option_copied result ≡ map.get self.now name.now }
    {
        match position(self.entries.as_slice(), name) {
            Some(at) => Some(self.entries[at].bytes.as_slice()),
            None => None,
        }
    }

    /// Makes the file of this name hold these bytes. Where memory is wanting, nothing changes.
    pub fn put(&mut self, name: &str, bytes: &[u8]) -> Result<(), AllocError>
        ensures ok { OnOk result (self.new ≡ with_file name.now bytes.now self.old) }
        ensures err { OnErr result (self.new ≡ self.old) }
    {
        let bytes = Vec::from_slice(self.alloc, bytes)?;
        match position(self.entries.as_slice(), name) {
            Some(at) => self.entries[at].bytes = bytes,
            None => {
                let name = String::from_str(self.alloc, name)?;
                self.entries.push(NamedFile { name, bytes })?;
            }
        }
        Ok(())
    }

    /// Adds bytes at the end of the file of this name, if there is one. Where memory is wanting,
    /// nothing changes.
    pub fn append(&mut self, name: &str, more: &[u8]) -> Result<(), AllocError>
        ensures ok { OnOk result (self.new ≡ with_more name.now more.now self.old) }
        ensures err { OnErr result (self.new ≡ self.old) }
    {
        if let Some(at) = position(self.entries.as_slice(), name) {
            self.entries[at].bytes.extend_from_slice(more)?;
        }
        Ok(())
    }
}

/// The place of the file of this name.
fn position(entries: &[NamedFile], name: &str) -> Option<usize>
    ensures within { IfSome result (λ at. at < length entries.now) }
    ensures first { IfSome result (λ at.
        AllWithin (λ file. string_bytes file.name ≢ name.now) entries.now 0 at) }
    ensures there { IfSome result (HoldsAt (λ file. string_bytes file.name ≡ name.now) entries.now) }
    ensures none { IfNone result (All (λ file. string_bytes file.name ≢ name.now) entries.now) }
{
    for (at, file) in entries.iter().enumerate() {
        if file.name.as_str() == name {
            return Some(at);
        }
    }
    None
}
