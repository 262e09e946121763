//! Which labels flow in a network, as contracts of functions that do nothing.
ghost use Rattle.std.specs.Prelude.{◌≡◌, ℕ, Some, slice_get};
ghost use Rattle.sn_record.specs.Record.{Entries};
ghost use Rattle.sn_net.specs.Item.{Rec};
ghost use Rattle.sn_model.specs.declared.run.Run.{Run};
ghost use Rattle.sn_view.specs.Calls.{FliesAt};
ghost use Rattle.sn_view.specs.Chains.{Comes};
ghost use Rattle.sn_view.specs.View.{It, Node, Plain, View};
ghost use Rattle.sn_labels.specs.Flowing.{HasLabelsOf, HasRunLabels};

/// After any list of events each record, wherever it waits, has labels of the run alone.
pub fn records_have_labels_of_the_run()
    ensures everywhere { (run : Run) (g : View) → ∥ Comes run g ∥₁ → HasRunLabels run g }
    ensures called { (run : Run) (g : View) (i p call : ℕ) (given : Entries) → ∥ Comes run g ∥₁ → FliesAt g i p call given → HasLabelsOf run given }
    ensures waiting { (run : Run) (g : View) (i p : ℕ) (n : Node) (r : Entries) → ∥ Comes run g ∥₁ → slice_get g.nodes i ≡ Some n → slice_get n.waiting p ≡ Some (Plain (It (Rec r))) → HasLabelsOf run r }
{}
