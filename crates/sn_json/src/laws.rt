//! Laws of records as JSON, each as the contract of a function that does nothing.
ghost use Rattle.std.specs.Prelude.{◌≡◌, ℕ, List, Ok};
ghost use Rattle.sn_input.specs.Numbered.{record_of, with_entries};
ghost use Rattle.sn_names.specs.Names.{AreNames};
ghost use Rattle.sn_record.specs.Record.{Entries};
ghost use Rattle.sn_record_parser.specs.declared.entry.Entry.{Entry as SomeEntry};
ghost use Rattle.sn_record_roundtrip.specs.Writable.{IsWritable};
ghost use Rattle.sn_json.specs.Reading.{entries_of};
ghost use Rattle.sn_json.specs.Writing.{json_of};

/// The JSON of a record reads as the record: it is entries, none of their names is new, and they are the record.
pub fn json_reads_back()
    ensures { (names : List (List ℕ)) (shown : Entries) → AreNames names → IsWritable names shown
        → (entries : List SomeEntry) × (entries_of (json_of names shown) ≡ Ok entries) × (with_entries names entries ≡ names) × (record_of names entries ≡ shown) }
{}
