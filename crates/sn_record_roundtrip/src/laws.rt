//! The laws of the printed line, each as the contract of a function that does nothing.
ghost use Rattle.std.specs.Prelude.{◌≡◌, ◌≤◌, IsTrue, List, [], ◌∷◌, length, ℕ, Result, Ok};
ghost use Rattle.std.specs.List.{All};
ghost use Rattle.sn_input.specs.declared.input.Input.{Input as SomeInput};
ghost use Rattle.sn_input.specs.declared.input.InputFault.{InputFault as SomeFault};
ghost use Rattle.sn_input.specs.Numbered.{record_of};
ghost use Rattle.sn_input.specs.Reading.{ReadsFile, most_records};
ghost use Rattle.sn_names.specs.Names.{AreNames, is_held};
ghost use Rattle.sn_output.specs.Line.{line as line_text};
ghost use Rattle.sn_record.specs.Record.{Entries};
ghost use Rattle.sn_record_parser.specs.Grammar.{IsLine};
ghost use Rattle.sn_record_parser.specs.declared.entry.Entry.{Entry as SomeEntry};
ghost use Rattle.sn_record_roundtrip.specs.PrintedFile.{printed_file, line_by_line};
ghost use Rattle.sn_record_roundtrip.specs.ReadsBack.{ReadsBack};
ghost use Rattle.sn_record_roundtrip.specs.Writable.{IsWritable};
ghost use Rattle.sn_record_tokens.specs.Tokens.{Tokens};
ghost use Rattle.sn_record_tokens.specs.declared.token.Token.{Token as SomeToken};

/// The printed line of a record that may be written, with different names, is one line of characters and reads back as
/// the record. Each record that was read from a line may be written, where its names are held.
pub fn printed_line_reads_back()
    ensures printed { (names : List (List ℕ)) (shown : Entries) → AreNames names → IsWritable names shown → ReadsBack names shown }
    ensures read { (names : List (List ℕ)) (characters : List ℕ) (tokens : List SomeToken) (entries : List SomeEntry) → Tokens characters tokens → IsLine tokens entries
        → All (λ e. IsTrue (is_held names e.label.name)) entries → IsWritable names (record_of names entries) }
{}

/// The record file that is the printed line of such a record gives this record, on line 1, and the same names. The file
/// of the lines of several, at most as many as a file may have, gives them in order, and nothing else.
pub fn printed_file_reads_back()
    ensures line { (names : List (List ℕ)) (shown : Entries) → AreNames names → IsWritable names shown
        → ReadsFile names (line_text names shown) (Ok record { records = shown ∷ []; lines = 1 ∷ []; names = names }) }
    ensures lines { (names : List (List ℕ)) (records : List Entries) → AreNames names → All (IsWritable names) records → length records ≤ most_records
        → ReadsFile names (printed_file names records) (Ok (line_by_line names records)) }
    ensures only { (names : List (List ℕ)) (records : List Entries) (result : Result SomeInput SomeFault) → AreNames names → All (IsWritable names) records → length records ≤ most_records
        → ReadsFile names (printed_file names records) result → result ≡ Ok (line_by_line names records) }
{}
