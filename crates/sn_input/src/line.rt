//! What one line says.
ghost use Rattle.std.specs.Prelude.{◌≡◌, List, IfOk, Err};
ghost use Rattle.sn_record_tokens.specs.Tokens.{is_blank};
ghost use Rattle.sn_record_parser.specs.declared.entry.Entry.{Entry};
ghost use Rattle.sn_input.specs.Line.{is_blank_line, SpellsLine};
ghost use Rattle.sn_input.specs.Steps.{SpellsOnly};

use sn_list::Seq;
use sn_record_parser::{Entry, EntryFault, entries_of};
use sn_record_tokens::{TokenFault, tokens_of};
use std::alloc::Global;

fn is_blank(byte: u8) -> bool
    ensures { result ≡ is_blank byte }
{
    byte == b' ' || byte == b'\t' || byte == b'\r'
}

/// Whether nothing but blanks stands in the line.
pub fn is_blank_line(line: &[u8]) -> bool
    ensures { result ≡ is_blank_line line.now }
{
    line.iter().all(|byte| is_blank(*byte))
}

/// The entries that a line spells.
pub fn entries_in(alloc: Global, line: &[u8]) -> Result<Seq<Entry>, EntryFault>
    ensures answer { IfOk result (SpellsOnly line.now) }
    ensures wrong { result ≡ Err EntryFault.Wrong → (entries : List Entry) → ¬ SpellsLine line.now entries }
{
    let Ok(text) = str::from_utf8(line) else {
        return Err(EntryFault::Wrong);
    };
    match tokens_of(alloc, text) {
        Ok(tokens) => entries_of(alloc, tokens),
        Err(TokenFault::Wrong) => Err(EntryFault::Wrong),
        Err(TokenFault::Memory) => Err(EntryFault::Memory),
    }
}
