//! What follows from the definitions.
ghost use Rattle.std.specs.Prelude.{◌≡◌, ◌↔◌, List};
ghost use Rattle.std.specs.FinMap as map;
ghost use Rattle.std.specs.List.{All};
ghost use Rattle.sn_record.specs.LabelSet.{Labels};
ghost use Rattle.sn_record.specs.Record.{Entries, IsRecord, Matches, score};
ghost use Rattle.sn_types.specs.RecordType.{IsOfType, IsSubtype};
ghost use Rattle.sn_types.specs.Subsets as plain;
ghost use Rattle.sn_types.specs.Subsets.{Has, IsUnbound, NoneBinds};

/// A type is a subtype of another exactly where each record of the one is of the other.
pub fn subtypes_by_their_records()
    ensures { (x y : List Labels) → IsSubtype x y ↔ ((r : Entries) → IsRecord r → IsOfType x r → IsOfType y r) }
{}

/// Where no label is a binding tag, a record matches a variant exactly where it has its labels, and subtypes are told by subsets.
pub fn without_binding_tags()
    ensures matching { (r : Entries) (v : Labels) → NoneBinds (map.contains_key r) → Matches r v ↔ Has r v }
    ensures scores { (variants : List Labels) (r : Entries) → NoneBinds (map.contains_key r) → score variants r ≡ plain.score variants r }
    ensures subtypes { (x y : List Labels) → All IsUnbound x → IsSubtype x y ↔ plain.IsSubtype x y }
{}
