//! What follows from the definitions.
ghost use Rattle.std.specs.Prelude.{◌≡◌, ◌↔◌, ℕ, List, [], None, Some, All, map};
ghost use Rattle.sn_record.specs.LabelSet.{Labels};
ghost use Rattle.sn_record.specs.Record.{Entries, score};
ghost use Rattle.sn_record.specs.declared.value.Value.{Value};
ghost use Rattle.sn_net.specs.declared.expr.BoxProgram.{BoxProgram};
ghost use Rattle.sn_net.specs.declared.expr.Expr.{Expr};
ghost use Rattle.sn_net.specs.declared.expr.Expr.TheViews.{out-Expr};
ghost use Rattle.sn_net.specs.declared.filter.Filter.{Filter};
ghost use Rattle.sn_net.specs.Answer.{filter_answer, template_record, up_to_fault};
ghost use Rattle.sn_net.specs.Best.{IsBest};
ghost use Rattle.sn_net.specs.BoxEvaluation.{Progress, evaluated, node, with_unit};
ghost use Rattle.sn_net.specs.Filter.{IsClosed, IsClosedTemplate, every_template};
ghost use Rattle.sn_net.specs.Route.{best_branch};

/// An evaluation takes a unit of fuel, and is then that of its node, each of whose parts has the fuel that the part before
/// it left.
pub fn a_node_takes_a_unit()
    ensures { (program : BoxProgram) (e : Expr) (variables : List Value) (progress : Progress) →
        evaluated program e variables progress ≡ with_unit progress.fuel progress.emitted (node program (evaluated program) (out-Expr e) variables) }
{}

/// The best branch of a choice has the greatest score, and each branch left of it a smaller one or none. Where there is no
/// best branch, none has a score.
pub fn the_best_branch()
    ensures best { (faces : List (List Labels)) (r : Entries) (i : ℕ) → best_branch faces r ≡ Some i → IsBest faces r i }
    ensures none { (faces : List (List Labels)) (r : Entries) → best_branch faces r ≡ None → All (λ face. score face r ≡ None) faces }
{}

/// A filter without arms has one list, of which it answers the record of each template, in order and up to the first fault. It
/// is closed where each template is.
pub fn no_arms()
    ensures answer { (filter : Filter) (r : Entries) → filter.arms ≡ [] → filter_answer filter r ≡ up_to_fault filter.place (map (template_record r filter.pattern) filter.templates) }
    ensures closed { (filter : Filter) → filter.arms ≡ [] → IsClosed filter ↔ All (IsClosedTemplate filter.pattern) filter.templates }
    ensures templates { (filter : Filter) → filter.arms ≡ [] → every_template filter ≡ filter.templates }
{}
