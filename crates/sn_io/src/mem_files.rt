ghost use Rattle.std.specs.Prelude.{◌≡◌, ◌≢◌, ◌<◌, ◌≤◌, ℕ, List, None, Some, drop, length, max, take, false, IfErr, IfOk, IfSome, IsOk, IsTrue, MatchOption, OnErr, OnOk};
ghost use Rattle.sn_io.specs.Causes.{Rose};
ghost use Rattle.sn_io.specs.Planned.{empty_plan, fails_next, after_call, with_call};
ghost use Rattle.sn_io.specs.FilesInMemory.{asked_in, bytes_in, faults_in, file_named, files_plan, IsPlace, KeepsFiles, KeepsStored};

use crate::files::{Bytes, Files, FilesFault};
use crate::plan::Plan;
use sn_list::{Memory, Seq};
use std::alloc::Global;

#[derive(Drop)]
struct StoredFile {
    name: Bytes,
    bytes: Bytes,
    faults: u64,
}

/// Files in memory, with planned faults.
///
/// Each name that was added has a count of faults of its own, and all other names share one. A read of a
/// name that was not added is a fault.
#[derive(Drop)]
pub struct MemFiles {
    alloc: Global,
    stored: Vec<StoredFile>,
    other_faults: u64,
    asked: u64,
    plan: Plan,
}

/// Where the first file of that name stands.
fn place(stored: &[StoredFile], name: &[u8]) -> Option<usize>
    ensures { MatchOption result (file_named stored.now name.now ≡ None) (IsPlace stored.now name.now) }
{
    for (i, file) in stored.iter().enumerate() {
        if file.name.as_slice() == name {
            return Some(i);
        }
    }
    None
}

impl MemFiles {
    /// Counts a read of `name` that asks for so many bytes, and answers where its file stands, but for a fault: one that is planned, or
    /// that of a name that was not added.
    fn begin_read(&mut self, name: &[u8], asked: u64) -> Result<usize, FilesFault>
        ensures place { IfOk result (IsPlace self.new.stored.items name.now) }
        ensures kept { OnOk result (KeepsStored self.old self.new) }
        ensures refused { IfErr result (λ fault. fault ≡ FilesFault.ReadFault) }
        ensures fault { OnErr result (Rose (faults_in self.old name.now) (faults_in self.new name.now)) }
        ensures later { (any : List ℕ) → faults_in self.old any ≤ faults_in self.new any }
        ensures same { (any : List ℕ) → bytes_in self.new any ≡ bytes_in self.old any }
        ensures asked { asked_in self.new ≡ max (asked_in self.old) asked }
        ensures counted { files_plan self.new ≡ after_call (files_plan self.old) }
        ensures planned { OnOk result (fails_next (files_plan self.old) ≡ false) }
        ensures succeeds { fails_next (files_plan self.old) ≡ false → IfSome (bytes_in self.old name.now) (λ told. IsOk result) }
    {
        self.asked = self.asked.max(asked);
        let is_planned = self.plan.count_call();
        let i = match place(self.stored.as_slice(), name) {
            Some(i) => i,
            None => {
                self.other_faults = self.other_faults.saturating_add(1);
                return Err(FilesFault::ReadFault);
            }
        };
        if is_planned {
            let file = &mut self.stored[i];
            file.faults = file.faults.saturating_add(1);
            return Err(FilesFault::ReadFault);
        }
        Ok(i)
    }
}

impl Files for MemFiles {
    ghost bytes_of = { bytes_in };

    ghost faults = { faults_in };

    ghost asked = { asked_in };

    fn read(&mut self, alloc: Global, name: &[u8], limit: u64) -> Result<Bytes, FilesFault>
        ensures whole { IfOk result (λ bytes. IfSome (bytes_in self.old name.now) (λ told. bytes ≡ told)) }
        ensures within { IfOk result (λ bytes. length bytes ≤ limit) }
        ensures too_large { result ≡ Err FilesFault.TooLarge → IfSome (bytes_in self.old name.now) (λ told. limit < length told) }
        ensures fault { result ≡ Err FilesFault.ReadFault → Rose (faults_in self.old name.now) (faults_in self.new name.now) }
        ensures later { (any : List ℕ) → faults_in self.old any ≤ faults_in self.new any }
        ensures same { (any : List ℕ) → bytes_in self.new any ≡ bytes_in self.old any }
        ensures asked { asked_in self.new ≡ max (asked_in self.old) limit }

        // What is planned comes, and so does the fault of a name that was not added, and no other.
        ensures counted { files_plan self.new ≡ after_call (files_plan self.old) }
        ensures planned { IsTrue (fails_next (files_plan self.old)) → result ≡ Err FilesFault.ReadFault }
        ensures missing { bytes_in self.old name.now ≡ None → result ≡ Err FilesFault.ReadFault }
        ensures succeeds { fails_next (files_plan self.old) ≡ false → IfSome (bytes_in self.old name.now) (λ told. length told ≤ limit → result ≢ Err FilesFault.Memory → result ≡ Ok told) }
    {
        let i = self.begin_read(name, limit)?;
        let bytes = self.stored[i].bytes.as_slice();
        if bytes.len() as u64 > limit {
            return Err(FilesFault::TooLarge);
        }
        Ok(Seq::from_slice(alloc, bytes)?)
    }

    fn read_part(
        &mut self,
        alloc: Global,
        name: &[u8],
        from: u64,
        most: u64,
    ) -> Result<Bytes, FilesFault>
        requires { 0 < most }
        ensures part { IfOk result (λ bytes. IfSome (bytes_in self.old name.now) (λ told. bytes ≡ take most (drop from told))) }
        ensures within { IfOk result (λ bytes. length bytes ≤ most) }
        ensures small { result ≢ Err FilesFault.TooLarge }
        ensures fault { result ≡ Err FilesFault.ReadFault → Rose (faults_in self.old name.now) (faults_in self.new name.now) }
        ensures later { (any : List ℕ) → faults_in self.old any ≤ faults_in self.new any }
        ensures same { (any : List ℕ) → bytes_in self.new any ≡ bytes_in self.old any }
        ensures asked { asked_in self.new ≡ max (asked_in self.old) most }

        // A call counts as a read, and no other fault comes than at a read.
        ensures counted { files_plan self.new ≡ after_call (files_plan self.old) }
        ensures planned { IsTrue (fails_next (files_plan self.old)) → result ≡ Err FilesFault.ReadFault }
        ensures missing { bytes_in self.old name.now ≡ None → result ≡ Err FilesFault.ReadFault }
        ensures succeeds { fails_next (files_plan self.old) ≡ false → IfSome (bytes_in self.old name.now) (λ told. result ≢ Err FilesFault.Memory → result ≡ Ok (take most (drop from told))) }
    {
        let i = self.begin_read(name, most)?;
        let bytes = self.stored[i].bytes.as_slice();
        let start = bytes.len().min(from as usize);
        let end = bytes.len().min(start.saturating_add(most as usize));
        Ok(Seq::from_slice(alloc, &bytes[start..end])?)
    }
}

impl MemFiles {
    /// No files, and no planned faults.
    pub fn new(alloc: Global) -> MemFiles
        ensures no_files { (name : List ℕ) → bytes_in result name ≡ None }
        ensures no_faults { (name : List ℕ) → faults_in result name ≡ 0 }
        ensures none_asked { asked_in result ≡ 0 }
        ensures no_plan { files_plan result ≡ empty_plan }
    {
        MemFiles {
            alloc,
            stored: Vec::new(alloc),
            other_faults: 0,
            asked: 0,
            plan: Plan::new(alloc),
        }
    }

    /// Adds a file, or replaces the bytes of one that was added.
    ///
    /// Every name keeps its count of faults: a new one begins at the count that it shared.
    pub fn add(&mut self, name: &[u8], bytes: &[u8]) -> Result<(), Memory>
        ensures added { OnOk result (bytes_in self.new name.now ≡ Some bytes.now) }
        ensures others { OnOk result ((other : List ℕ) → other ≢ name.now → bytes_in self.new other ≡ bytes_in self.old other) }
        ensures err { OnErr result (KeepsFiles self.old self.new) }
        ensures faults { (any : List ℕ) → faults_in self.new any ≡ faults_in self.old any }
        ensures plan { files_plan self.new ≡ files_plan self.old }
        ensures asked { asked_in self.new ≡ asked_in self.old }
    {
        let bytes = Seq::from_slice(self.alloc, bytes)?;
        match place(self.stored.as_slice(), name) {
            Some(i) => self.stored[i].bytes = bytes,
            None => {
                let name = Seq::from_slice(self.alloc, name)?;
                let faults = self.other_faults;
                self.stored.push(StoredFile {
                    name,
                    bytes,
                    faults,
                })?;
            }
        }
        Ok(())
    }

    /// Plans a fault at the read with this number, counted from 1 over the reads of all names.
    pub fn fail_at(&mut self, call: u64) -> Result<(), Memory>
        ensures ok { OnOk result (files_plan self.new ≡ with_call (files_plan self.old) call) }
        ensures err { OnErr result (files_plan self.new ≡ files_plan self.old) }
        ensures files { KeepsFiles self.old self.new }
    {
        self.plan.add(call)
    }
}
