//! Laws of what is printed of a stream, each as the contract of a function that does nothing.
ghost use Rattle.std.specs.Prelude.{◌≡◌, ◌++◌, ℕ, List, map, None, Some};
ghost use Rattle.std.specs.List.{flat_map};
ghost use Rattle.sn_net.specs.Item.{ModelItem, Rec};
ghost use Rattle.sn_record.specs.Record.{Entries};
ghost use Rattle.sn_record.specs.declared.item.Fault.{Fault as SomeFault};
ghost use Rattle.sn_output.specs.Line.{line as line_text};
ghost use Rattle.sn_output.specs.Printed.{printed, ending};

/// Records are printed line by line, and what follows them is printed after them and ends as it would without them.
pub fn records_are_printed_first()
    ensures lines { (names : List (List ℕ)) (records : List Entries) → printed names (map Rec records) ≡ flat_map (line_text names) records }
    ensures printed { (names : List (List ℕ)) (records : List Entries) (items : List ModelItem) → printed names (map Rec records ++ items) ≡ flat_map (line_text names) records ++ printed names items }
    ensures unended { (records : List Entries) → ending (map Rec records) ≡ None }
    ensures ended { (records : List Entries) (items : List ModelItem) → ending (map Rec records ++ items) ≡ ending items }
{}

/// A stream that a fault ends is printed and ends as it does, whatever follows it.
pub fn nothing_follows_a_fault()
    ensures printed { (names : List (List ℕ)) (items more : List ModelItem) (fault : SomeFault) → ending items ≡ Some fault → printed names (items ++ more) ≡ printed names items }
    ensures ended { (items more : List ModelItem) (fault : SomeFault) → ending items ≡ Some fault → ending (items ++ more) ≡ Some fault }
{}
