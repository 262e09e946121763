ghost use Rattle.std.specs.Prelude.{◌≡◌, ◌+◌, ◌%◌, ◌++◌, OnErr, OnOk};
ghost use Rattle.std.specs.Fmt.{decimal};
ghost use Rattle.sn_sample.specs.Counts.{counts_of};
ghost use Rattle.sn_sample.specs.Tally.{counts_line, int_at, nothing_counted, rest, with_record};

use itoa::Buffer;
use sn_list::Memory;
use sn_names::Names;
use sn_record::{Kind, Label, Record, Text, Value};

/// The counters of a stream's records: how many there were, the sums of `<s>` and of `w`, and a mix of both that tells their order, each
/// but the first below 4,294,967,296.
#[derive(Clone, Copy, PartialEq, Eq, Debug)]
pub struct Tally {
    pub records: u64,
    pub s: u32,
    pub w: u32,
    pub mix: u32,
}

/// The integer at a name's label, and 0 where the record has none there.
fn int_at(names: &Names, kind: Kind, name: &[u8], r: &Record) -> i64
    ensures { result ≡ int_at names.now kind name.now r.now }
{
    let Some(id) = names.find(name) else {
        return 0;
    };
    match r.get(Label { kind, id }) {
        Some(Value::Int(n)) => *n,
        _ => 0,
    }
}

/// The rest of a division by 4,294,967,296, which is never negative.
fn rest(n: i64) -> u32
    ensures { result ≡ rest n }
{
    n.rem_euclid(4_294_967_296) as u32
}

/// The rest of a sum.
fn sum(a: u32, b: u32) -> u32
    ensures { result ≡ (a + b) % 4_294_967_296 }
{
    ((a as u64 + b as u64) % 4_294_967_296) as u32
}

impl Tally {
    /// Nothing was counted yet.
    pub fn new() -> Tally
        ensures { counts_of result ≡ nothing_counted }
    {
        Tally {
            records: 0,
            s: 0,
            w: 0,
            mix: 0,
        }
    }

    /// Counts a record. Where more were counted than a `u64` holds, it is refused as memory is, and nothing changes.
    pub fn count(&mut self, names: &Names, r: &Record) -> Result<(), Memory>
        ensures counted { OnOk result (counts_of self.new ≡ with_record names.now (counts_of self.old) r.now) }
        ensures unchanged { OnErr result (self.new ≡ self.old) }
    {
        let Some(records) = self.records.checked_add(1) else {
            return Err(Memory);
        };
        let s = rest(int_at(names, Kind::Tag, b"s", r));
        let w = rest(int_at(names, Kind::Field, b"w", r));
        let mix = (31 * self.mix as u64 + s as u64 + w as u64) % 4_294_967_296;
        *self = Tally {
            records,
            s: sum(self.s, s),
            w: sum(self.w, w),
            mix: mix as u32,
        };
        Ok(())
    }

    /// Appends the line of the counters.
    pub fn push_line(&self, text: &mut Text) -> Result<(), Memory>
        ensures { OnOk result (text.new ≡ text.old ++ counts_line (counts_of self.now)) }
    {
        push_count(text, b"records=", self.records)?;
        push_count(text, b" s=", self.s as u64)?;
        push_count(text, b" w=", self.w as u64)?;
        push_count(text, b" mix=", self.mix as u64)?;
        text.extend_from_slice(b"\n")
    }
}

/// Appends a word and a number.
pub fn push_count(text: &mut Text, word: &[u8], count: u64) -> Result<(), Memory>
    ensures { OnOk result (text.new ≡ text.old ++ (word.now ++ decimal count)) }
{
    text.extend_from_slice(word)?;
    let mut buffer = Buffer::new();
    text.extend_from_slice(buffer.format(count).as_bytes())
}
