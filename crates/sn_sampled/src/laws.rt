//! Laws of the built-in source, each as the contract of a function that does nothing.
ghost use Rattle.std.specs.Prelude.{◌≡◌, ℕ, Err};
ghost use Rattle.sn_output.specs.Printed.{ending};
ghost use Rattle.sn_plain.specs.Answer.{FindsSample, IsAnswered, OfBuiltIn, Outside, ending_status};
ghost use Rattle.sn_plain.specs.Sample.{AreTypedSamples, answers_to};
ghost use Rattle.sn_stop.specs.declared.refusal.Refusal.{Refusal as SomeRefusal};
ghost use Rattle.sn_stop.specs.declared.status.Status.{Status as SomeStatus};
ghost use Rattle.sn_words.specs.declared.command.Command.TheVariants.{Sample};

/// The built-in source is accepted, and so many records of a number find room for their names and are of its input type,
/// whatever the number and the count.
pub fn the_sample_is_accepted()
    ensures { OfBuiltIn (λ program. (number count : ℕ) → AreTypedSamples program.names program.claim number count) }
{}

/// So a sample is never refused: it ends as its stream does, whole or at a fault.
pub fn samples_are_done()
    ensures never_refused { (number count : ℕ) (refusal : SomeRefusal) → FindsSample number count (Err refusal) → ⊥ }
    ensures done { (outside : Outside) (number count : ℕ) (left : SomeStatus) → IsAnswered (Sample number count) outside left
        → OfBuiltIn (λ program. left ≡ ending_status (ending (answers_to program number count))) }
{}
