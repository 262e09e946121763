//! What tables say of networks, as contracts of functions that do nothing.
ghost use Rattle.std.specs.Prelude.{[], ◌++◌, List, Result};
ghost use Rattle.std.specs.List.{Contains};
ghost use Rattle.sn_record.specs.LabelSet.{Labels};
ghost use Rattle.sn_net.specs.declared.expr.BoxProgram.{BoxProgram};
ghost use Rattle.sn_net.specs.declared.net.Claim.{Claim};
ghost use Rattle.sn_typing.specs.Outline.{Outline};
ghost use Rattle.sn_typing.specs.Reached.{Turn};
ghost use Rattle.sn_typing.specs.Accepted.{IsBounded, IsReached};
ghost use Rattle.sn_flow.specs.declared.table.Table.{Table};
ghost use Rattle.sn_flow.specs.Tables.{Came, Covers, Holds, no_table};
ghost use Rattle.sn_flow.specs.Rows.{RowAt};
ghost use Rattle.sn_flow.specs.declared.fault.FlowFault.{FlowFault};
ghost use Rattle.sn_flow.specs.Verdicts.{AreOne, Checked, Decided, FlowFound};

/// Where a table holds and covers each variant of the input, the network is bounded.
pub fn tables_bound()
    ensures { (net : Outline) (input : List Labels) (t : Table) → Holds net t → ((v : Labels) → Contains input v → Covers net t v) → IsBounded net input }
{}

/// Each row is of a variant that reaches its part.
pub fn rows_are_reached()
    ensures { (root : Outline) (input : List Labels) (way : List Turn) (part : Outline) (u : Labels) (t : Table) → Came root input [] root t → RowAt root t way part u → IsReached root input way part u }
{}

/// A table of nothing holds, and its rows came.
pub fn empty_tables_hold()
    ensures holds { (net : Outline) → Holds net no_table }
    ensures came { (root : Outline) (input : List Labels) (way : List Turn) (net : Outline) → Came root input way net no_table }
{}

/// A check answers Ok exactly where the claim is accepted, but for want of memory.
pub fn answers_are_decided()
    ensures { (boxes : List BoxProgram) (claim : Claim) (answer : Result (Unit {0}) FlowFault) → Checked boxes claim answer → Decided boxes claim answer }
{}

/// There is one answer, but for want of memory: the contracts of `check` and `flow` leave no choice.
pub fn answers_are_one()
    ensures of_check { (boxes : List BoxProgram) (claim : Claim) (r s : Result (Unit {0}) FlowFault) → Checked boxes claim r → Checked boxes claim s → AreOne r s }
    ensures of_flow { (net : Outline) (v : Labels) (r s : Result (List Labels) FlowFault) → FlowFound net v r → FlowFound net v s → AreOne r s }
{}
