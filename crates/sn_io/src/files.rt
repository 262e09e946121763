ghost use Rattle.std.specs.Prelude.{◌≡◌, ◌≢◌, ◌<◌, ◌≤◌, ℕ, List, Option, drop, length, max, take, IfOk, IfSome};
ghost use Rattle.sn_io.specs.Causes.{Rose};

use sn_list::{Memory, Seq};
use std::alloc::Global;
use thiserror::Error;

/// A list of bytes.
pub type Bytes = Seq<u8>;

/// Why a file was not read.
#[derive(Clone, Copy, PartialEq, Eq, Debug, Error)]
pub enum FilesFault {
    /// The outside did not give the bytes. The name's count of faults rose.
    #[error("the file was not read")]
    ReadFault,
    /// The file has more bytes than were allowed.
    #[error("the file is too large")]
    TooLarge,
    #[error("out of memory")]
    Memory,
}

impl From<Memory> for FilesFault {
    ghost use Rattle.std.specs.Prelude.{◌≡◌};
    ghost use Rattle.sn_io.specs.declared.files.FilesFault.TheVariants as fault;

    ghost from_gives = { λ _ e. e ≡ fault.Memory };

    fn from(_wanted: Memory) -> FilesFault {
        FilesFault::Memory
    }
}

/// Where the bytes of names come from.
pub trait Files {
    /// The bytes of a name, where they are told.
    ghost bytes_of: { Self → List ℕ → Option (List ℕ) };

    /// The count of faults at a name. An implementation may keep one count for all names.
    ghost faults: { Self → List ℕ → ℕ };

    /// The greatest number of bytes that a call asked for so far, be it a `limit` or a `most`.
    ghost asked: { Self → ℕ };

    /// Answers all bytes of `name`, of which there are at most `limit`.
    ///
    /// `TooLarge` is answered only once `limit + 1` bytes were read. No read changes the bytes of any
    /// name, and no error leaves anything else changed than counts.
    fn read(&mut self, alloc: Global, name: &[u8], limit: u64) -> Result<Bytes, FilesFault>
        ensures whole { IfOk result (λ bytes. IfSome (bytes_of self.old name.now) (λ told. bytes ≡ told)) }
        ensures within { IfOk result (λ bytes. length bytes ≤ limit) }
        ensures too_large { result ≡ Err FilesFault.TooLarge → IfSome (bytes_of self.old name.now) (λ told. limit < length told) }
        ensures fault { result ≡ Err FilesFault.ReadFault → Rose (faults self.old name.now) (faults self.new name.now) }
        ensures later { (any : List ℕ) → faults self.old any ≤ faults self.new any }
        ensures same { (any : List ℕ) → bytes_of self.new any ≡ bytes_of self.old any }
        ensures asked { asked self.new ≡ max (asked self.old) limit };

    /// Answers the bytes of `name` from the place `from` on: as many as there are, and at most `most`. None are answered where no byte
    /// stands there.
    ///
    /// No call changes the bytes of any name, and no error leaves anything else changed than counts.
    fn read_part(
        &mut self,
        alloc: Global,
        name: &[u8],
        from: u64,
        most: u64,
    ) -> Result<Bytes, FilesFault>
        requires { 0 < most }
        ensures part { IfOk result (λ bytes. IfSome (bytes_of self.old name.now) (λ told. bytes ≡ take most (drop from told))) }
        ensures within { IfOk result (λ bytes. length bytes ≤ most) }
        ensures small { result ≢ Err FilesFault.TooLarge }
        ensures fault { result ≡ Err FilesFault.ReadFault → Rose (faults self.old name.now) (faults self.new name.now) }
        ensures later { (any : List ℕ) → faults self.old any ≤ faults self.new any }
        ensures same { (any : List ℕ) → bytes_of self.new any ≡ bytes_of self.old any }
        ensures asked { asked self.new ≡ max (asked self.old) most };
}
