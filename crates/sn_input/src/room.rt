//! Whether the names of a line find room.
ghost use Rattle.std.specs.Prelude.{◌≡◌, ◌≤◌, ◌+◌, ℕ, length, nat_le, IfOk};
ghost use Rattle.sn_input.specs.Numbered.{with_entries};
ghost use Rattle.sn_input.specs.Reading.{most_names};

use sn_list::Memory;
use sn_names::{NameTable, Names};
use sn_record_parser::Entry;
use std::alloc::Global;

/// As many names as there may be.
const MOST_NAMES: usize = 4096;

/// How many names the entries add. Each is looked up once.
fn count_new(alloc: Global, names: &Names, entries: &[Entry]) -> Result<u32, Memory>
    ensures { IfOk result (λ new. length names.now + new ≡ length (with_entries names.now entries.now)) }
{
    let mut fresh = NameTable::new(alloc);
    for entry in entries {
        let name = entry.label.name.as_slice();
        if names.find(name).is_none() {
            fresh.enter(name)?;
        }
    }
    Ok(fresh.count())
}

/// Whether the names with those of the entries are no more than there may be. Where so many entries find room, whatever they are called,
/// no name is looked up.
pub fn have_room(alloc: Global, names: &Names, entries: &[Entry]) -> Result<bool, Memory>
    ensures { IfOk result (λ have. have ≡ nat_le (length (with_entries names.now entries.now)) most_names) }
{
    let held = names.count() as usize;
    if entries.len() <= MOST_NAMES - held {
        return Ok(true);
    }
    let new = count_new(alloc, names, entries)? as usize;
    Ok(new <= MOST_NAMES - held)
}
