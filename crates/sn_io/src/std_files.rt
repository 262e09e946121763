ghost use Rattle.std.specs.Prelude.{◌≡◌, ◌≢◌, ◌<◌, ◌≤◌, ◌++◌, ℕ, List, None, length, take, IfOk, IfSome, IfErr, OnErr};
ghost use Rattle.sn_io.specs.Causes.{Rose};

use crate::files::{Bytes, Files, FilesFault};
use sn_list::{Memory, Seq};
use std::alloc::Global;
use std::io::{Read, Seek, SeekFrom};
use std::{fs, rt};

/// The most bytes that one call of the system is asked for, and the room that is made for them where no fewer are wanted.
const CHUNK: usize = 64 * 1024;

/// A file that a part was read of, and the place up to which it was.
#[derive(Drop)]
struct Opened<F> {
    name: Bytes,
    file: F,
    at: u64,
}

/// The files of a runtime of std, of whose bytes it tells nothing.
///
/// The file of which the last part was read stays open, so that the part behind it is read on without a look at the name. So a pipe can be
/// read in parts too, from its start on, each byte once; a part of it that does not stand behind the last one is a fault. Of a file that
/// others write meanwhile, what is told is what each call of the system gives.
///
/// Each `Err` of std is a fault, of whatever kind: a missing file, a name that is not UTF-8, an
/// interrupted read, want of memory in the system. One count of faults serves all names.
#[derive(Drop)]
pub struct StdFiles<R: rt::Files> {
    runtime: R,
    faults: u64,
    asked: u64,
    opened: Option<Opened<R::File>>,
}

impl<R: rt::Files> StdFiles<R> {
    /// `runtime` is what std opens files with, as the `HostRuntime` that `main` is given, or a reference to it.
    pub fn new(runtime: R) -> StdFiles<R>
        ensures no_faults { (name : List ℕ) → ⟦<StdFiles<R> as Files>⟧.faults result name ≡ 0 }
        ensures none_asked { ⟦<StdFiles<R> as Files>⟧.asked result ≡ 0 }
    {
        StdFiles {
            runtime,
            faults: 0,
            asked: 0,
            opened: None,
        }
    }
}

/// Reads all that is left, unless it is more than `limit` bytes: then it stops after `limit + 1`.
fn read_within<F: Read>(
    alloc: Global,
    file: &mut F,
    chunk: &mut [u8],
    limit: u64,
) -> Result<Bytes, FilesFault>
    requires { 0 < length chunk.old }
    ensures whole { IfOk result (λ bytes. IfSome (F.remaining file.old) (λ left. bytes ≡ left)) }
    ensures within { IfOk result (λ bytes. length bytes ≤ limit) }
    ensures too_large { result ≡ Err FilesFault.TooLarge → IfSome (F.remaining file.old) (λ left. limit < length left) }
{
    let mut bytes = Seq::new(alloc);
    while bytes.len() as u64 <= limit {
        let room = (limit - bytes.len() as u64).saturating_add(1);
        let count = chunk.len().min(room as usize);
        match file.read(&mut chunk[..count]) {
            Ok(0) => return Ok(bytes),
            Ok(read) => bytes.extend_from_slice(&chunk[..read])?,
            Err(_) => return Err(FilesFault::ReadFault),
        }
    }
    Err(FilesFault::TooLarge)
}

/// Reads `most` bytes, or all that are left where they are fewer.
fn read_most<F: Read>(
    alloc: Global,
    file: &mut F,
    chunk: &mut [u8],
    most: u64,
) -> Result<Bytes, FilesFault>
    requires { 0 < length chunk.old }
    ensures part { IfOk result (λ bytes. IfSome (F.remaining file.old) (λ left. bytes ≡ take most left)) }
    ensures within { IfOk result (λ bytes. length bytes ≤ most) }
    ensures small { result ≢ Err FilesFault.TooLarge }
{
    let mut bytes = Seq::new(alloc);
    while (bytes.len() as u64) < most {
        let count = chunk.len().min((most - bytes.len() as u64) as usize);
        match file.read(&mut chunk[..count]) {
            Ok(0) => return Ok(bytes),
            Ok(read) => bytes.extend_from_slice(&chunk[..read])?,
            Err(_) => return Err(FilesFault::ReadFault),
        }
    }
    Ok(bytes)
}

fn read_opened<F: Read>(alloc: Global, file: &mut F, most: u64) -> Result<Bytes, FilesFault>
    requires { 0 < most }
    ensures within { IfOk result (λ bytes. length bytes ≤ most) }
    ensures small { result ≢ Err FilesFault.TooLarge }
{
    let room = CHUNK.min(most as usize);
    match vec![in alloc; 0u8; room] {
        Ok(mut chunk) => read_most(alloc, file, chunk.as_mut_slice(), most),
        Err(_) => Err(FilesFault::Memory),
    }
}

/// Opens a file at a place. One that cannot be read from elsewhere than its start, as a pipe, can be opened there alone.
fn open_at<R: rt::Files>(
    runtime: &R,
    alloc: Global,
    name: &[u8],
    from: u64,
) -> Result<Opened<R::File>, FilesFault>
    ensures { IfErr result (λ fault. fault ≢ FilesFault.TooLarge) }
{
    let Ok(path) = str::from_utf8(name) else {
        return Err(FilesFault::ReadFault);
    };
    let Ok(mut file) = fs::open(runtime, path) else {
        return Err(FilesFault::ReadFault);
    };
    if from > 0 && file.seek(SeekFrom::Start(from)).is_err() {
        return Err(FilesFault::ReadFault);
    }
    let name = Seq::from_slice(alloc, name)?;
    Ok(Opened {
        name,
        file,
        at: from,
    })
}

impl<R: rt::Files> StdFiles<R> {
    /// The part of a file, on from the last one where it stands behind it. The file stays open but for a fault.
    fn part_of(
        &mut self,
        alloc: Global,
        name: &[u8],
        from: u64,
        most: u64,
    ) -> Result<Bytes, FilesFault>
        requires { 0 < most }
        ensures within { IfOk result (λ bytes. length bytes ≤ most) }
        ensures small { result ≢ Err FilesFault.TooLarge }
        ensures faults { self.new.faults ≡ self.old.faults }
        ensures asked { self.new.asked ≡ self.old.asked }
    {
        let mut opened = match self.opened.take() {
            Some(opened) if opened.at == from && opened.name.as_slice() == name => opened,
            _ => open_at(&self.runtime, alloc, name, from)?,
        };
        let bytes = read_opened(alloc, &mut opened.file, most)?;
        opened.at = from.saturating_add(bytes.len() as u64);
        self.opened = Some(opened);
        Ok(bytes)
    }
}

fn read_file<R: rt::Files>(
    runtime: &R,
    alloc: Global,
    name: &[u8],
    limit: u64,
) -> Result<Bytes, FilesFault>
    ensures { IfOk result (λ bytes. length bytes ≤ limit) }
{
    let Ok(name) = str::from_utf8(name) else {
        return Err(FilesFault::ReadFault);
    };
    let Ok(mut file) = fs::open(runtime, name) else {
        return Err(FilesFault::ReadFault);
    };
    match vec![in alloc; 0u8; CHUNK] {
        Ok(mut chunk) => read_within(alloc, &mut file, chunk.as_mut_slice(), limit),
        Err(_) => Err(FilesFault::Memory),
    }
}

impl<R: rt::Files> Files for StdFiles<R> {
    ghost bytes_of = { λ _ _. None };

    ghost faults = { λ files _. files.faults };

    ghost asked = { λ files. files.asked };

    fn read(&mut self, alloc: Global, name: &[u8], limit: u64) -> Result<Bytes, FilesFault> {
        self.asked = self.asked.max(limit);
        let answer = read_file(&self.runtime, alloc, name, limit);
        if let Err(FilesFault::ReadFault) = &answer {
            self.faults = self.faults.saturating_add(1);
        }
        answer
    }

    fn read_part(
        &mut self,
        alloc: Global,
        name: &[u8],
        from: u64,
        most: u64,
    ) -> Result<Bytes, FilesFault> {
        self.asked = self.asked.max(most);
        let answer = self.part_of(alloc, name, from, most);
        if let Err(FilesFault::ReadFault) = &answer {
            self.faults = self.faults.saturating_add(1);
        }
        answer
    }
}
