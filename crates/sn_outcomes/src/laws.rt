//! Laws of outcomes, each as the contract of a function that does nothing.
//!
//! Each layer is said by a relation between what is read and what comes of it. These laws say that such a relation holds of
//! one outcome alone, so that "this is found where this is so" can be read as "and nothing else is". The last law says when
//! that outcome is no refusal.
ghost use Rattle.std.specs.Prelude.{◌≡◌, ◌≢◌, ◌≤◌, ◌++◌, ℕ, List, length, Option, Some, Result, Ok, Err};
ghost use Rattle.sn_ast.specs.declared.declaration.Decl.{Decl as SomeDecl};
ghost use Rattle.sn_ast.specs.declared.declaration.Program.{Program as SomeTree};
ghost use Rattle.sn_ast.specs.declared.measure.Measured.{Measured as SomeMeasured};
ghost use Rattle.sn_ast.specs.declared.terminal.Terminal.{Terminal as SomeTerminal};
ghost use Rattle.sn_feed.specs.Counted.{counted};
ghost use Rattle.sn_feed.specs.declared.feed.TheConstants.{MOST_INPUT};
ghost use Rattle.sn_input.specs.Line.{lines_of};
ghost use Rattle.sn_input.specs.Reading.{ReadsFile};
ghost use Rattle.sn_input.specs.declared.input.Input.{Input as SomeInput};
ghost use Rattle.sn_input.specs.declared.input.InputFault.{InputFault as SomeInputFault};
ghost use Rattle.sn_lexer.specs.Answer.{IsFault as IsLexFault, LexesAs};
ghost use Rattle.sn_lexer.specs.declared.token.LexFault.{LexFault as SomeLexFault};
ghost use Rattle.sn_lexer.specs.declared.token.LexFault.TheVariants as lex_fault;
ghost use Rattle.sn_lexer.specs.declared.token.Token.{Token as SomeToken};
ghost use Rattle.sn_net.specs.declared.net.Claim.{Claim as SomeClaim};
ghost use Rattle.sn_net.specs.Item.{ModelItem};
ghost use Rattle.sn_outcomes.specs.Fed.{AreShort, fed_whole};
ghost use Rattle.sn_outcomes.specs.Told.{AreTold, IsOfSource, IsTold, MergesInOrder};
ghost use Rattle.sn_output.specs.Printed.{ending};
ghost use Rattle.sn_parser.specs.Answer.{Faults, IsFault as IsParseFault, IsProgram as IsTree, Spell, Spells};
ghost use Rattle.sn_ast.specs.declared.fault.ParseFault.{ParseFault as SomeParseFault};
ghost use Rattle.sn_ast.specs.declared.fault.ParseFault.TheVariants as parse_fault;
ghost use Rattle.sn_sample.specs.Source.{source_text};
ghost use Rattle.sn_pieces.specs.Lines.{Reading, ReadsLines};
ghost use Rattle.sn_plain.specs.Answer.{BeginsFor, Finds, FindsFor, IsAccepted, IsAnswered, Outside, ending_status};
ghost use Rattle.sn_plain.specs.Feeding.{answer_of, fed_of};
ghost use Rattle.sn_plain.specs.Runs.{ComesOut, OnOneThread, Printout, WithWorkers};
ghost use Rattle.sn_load.specs.Load.{IsTypedFile, Limits, WhyNoRecords, limits_of, setting, stream_of};
ghost use Rattle.sn_plain.specs.Sample.{AreTypedSamples, answers_to};
ghost use Rattle.sn_load.specs.Scope.{IsProgram, WhyNoProgram};
ghost use Rattle.sn_plain.specs.Seen.{File};
ghost use Rattle.sn_plain.specs.Traces.{IsRunOver};
ghost use Rattle.sn_plain.specs.declared.replaying.TheConstants.{TRACE_LIMIT};
ghost use Rattle.sn_model.specs.declared.run.Run.{Run as SomeRun};
ghost use Rattle.sn_replay.specs.Replays.{Replays};
ghost use Rattle.sn_load.specs.Source.{FindsSource, HasText, IsSource};
ghost use Rattle.sn_load.specs.declared.load.Program.{Program as SomeProgram};
ghost use Rattle.sn_load.specs.declared.load.TheConstants.{INPUT_LIMIT, SOURCE_LIMIT};
ghost use Rattle.sn_stop.specs.declared.refusal.Refusal.{Refusal as SomeRefusal};
ghost use Rattle.sn_stop.specs.declared.status.Status.{Status as SomeStatus};
ghost use Rattle.sn_stop.specs.declared.status.Status.TheVariants as status;
ghost use Rattle.sn_words.specs.declared.command.Command.{Command as SomeCommand};
ghost use Rattle.sn_words.specs.declared.command.Command.TheVariants.{Check, Feed, Once, Plan, Print, Replay, Run, Sample, Trace as ATrace};

/// The bytes of a source give one list of tokens, or one refusal at one place, and never both. Want of memory is said of
/// any source, and so it is left out, here and below.
pub fn tokens_are_one()
    ensures one_list { (source : List ℕ) (tokens others : List SomeToken) → LexesAs source tokens → LexesAs source others → tokens ≡ others }
    ensures one_refusal { (source : List ℕ) (fault other : SomeLexFault) → IsLexFault source fault → IsLexFault source other → fault ≢ lex_fault.Memory
        → other ≢ lex_fault.Memory → fault ≡ other }
    ensures never_both { (source : List ℕ) (tokens : List SomeToken) (fault : SomeLexFault) → LexesAs source tokens → IsLexFault source fault → fault ≡ lex_fault.Memory }
{}

/// The grammar is unambiguous: terminals spell one list of declarations, with one place and one measure each, whatever the
/// limits.
pub fn grammar_is_unambiguous()
    ensures one_list { (said : List SomeTerminal) (decls others : List (ℕ × SomeMeasured SomeDecl)) → Spells said decls → Spells said others → decls ≡ others }
{}

/// Terminals spell one program within the limits, or are unexpected at one place, or too deep at one place, and no two of
/// these.
pub fn terminals_are_one_program()
    ensures one_program { (said : List SomeTerminal) (program other : SomeTree) → IsTree said program → IsTree said other → program ≡ other }
    ensures one_refusal { (size : ℕ) (said : List SomeTerminal) (fault other : SomeParseFault) → IsParseFault size said fault → IsParseFault size said other
        → fault ≢ parse_fault.Memory → other ≢ parse_fault.Memory → fault ≡ other }
    ensures never_both { (size : ℕ) (said : List SomeTerminal) (program : SomeTree) (fault : SomeParseFault) → IsTree said program → IsParseFault size said fault
        → fault ≡ parse_fault.Memory }
{}

/// The same of the tokens of a source, each of which says one terminal.
pub fn tokens_are_one_program()
    ensures one_program { (source : List ℕ) (tokens : List SomeToken) (program other : SomeTree) → Spell source tokens program → Spell source tokens other → program ≡ other }
    ensures one_refusal { (source : List ℕ) (tokens : List SomeToken) (fault other : SomeParseFault) → Faults source tokens fault → Faults source tokens other
        → fault ≢ parse_fault.Memory → other ≢ parse_fault.Memory → fault ≡ other }
    ensures never_both { (source : List ℕ) (tokens : List SomeToken) (program : SomeTree) (fault : SomeParseFault) → Spell source tokens program → Faults source tokens fault
        → fault ≡ parse_fault.Memory }
{}

/// The bytes of a source are one program, and so one canonical text, or one refusal at one place.
pub fn source_is_read_once()
    ensures one_program { (bytes : List ℕ) (program other : SomeTree) → IsSource bytes program → IsSource bytes other → program ≡ other }
    ensures one_outcome { (bytes : List ℕ) (found other : Result (List ℕ) SomeRefusal) → FindsSource bytes found → FindsSource bytes other → found ≡ other }
{}

/// The bytes of a source give one program, with its names resolved and each claim accepted, or one refusal, and never both.
/// Where types are wrong, the first claim that is refused is one, and so are its place and its variant.
pub fn source_is_resolved_once()
    ensures one_program { (bytes : List ℕ) (program other : SomeProgram) → IsProgram bytes program → IsProgram bytes other → program ≡ other }
    ensures one_refusal { (bytes : List ℕ) (refusal other : SomeRefusal) → WhyNoProgram bytes refusal → WhyNoProgram bytes other → refusal ≡ other }
    ensures never_both { (bytes : List ℕ) (program : SomeProgram) (refusal : SomeRefusal) → IsProgram bytes program → WhyNoProgram bytes refusal → ⊥ }
{}

/// A record file gives one thing to names that are there: the records with the names, or one refusal.
pub fn record_file_is_read_once()
    ensures one_outcome { (names : List (List ℕ)) (bytes : List ℕ) (found other : Result SomeInput SomeInputFault) → ReadsFile names bytes found → ReadsFile names bytes other
        → found ≡ other }
{}

/// The bytes of an input give names and a claim one list of records, each of the claim's input type, or one refusal, and
/// never both.
pub fn input_is_answered_once()
    ensures one_input { (names : List (List ℕ)) (claim : SomeClaim) (bytes : List ℕ) (input other : SomeInput) → IsTypedFile names claim bytes input
        → IsTypedFile names claim bytes other → input ≡ other }
    ensures one_refusal { (names : List (List ℕ)) (claim : SomeClaim) (bytes : List ℕ) (refusal other : SomeRefusal) → WhyNoRecords names claim bytes refusal
        → WhyNoRecords names claim bytes other → refusal ≡ other }
    ensures never_both { (names : List (List ℕ)) (claim : SomeClaim) (bytes : List ℕ) (input : SomeInput) (refusal : SomeRefusal) → IsTypedFile names claim bytes input
        → WhyNoRecords names claim bytes refusal → ⊥ }
{}

/// Of a command and its files one thing is found, and so there is one status, where the bytes of the files that it reads are
/// told. For a run with workers each choice, star and split of the network must merge in order, since where one is free the schedule may
/// show in the stream. Where the bytes of a file are not told, any outcome that needs them may be found. But what the source is refused for,
/// where its own bytes are told, is all that is found, whatever is told of the input.
pub fn command_has_one_outcome()
    ensures one_outcome { (command : SomeCommand) (file : List ℕ → File) (found other : Result Printout SomeRefusal) → AreTold command file → FindsFor command file found
        → FindsFor command file other → found ≡ other }
    ensures one_status { (command : SomeCommand) (outside : Outside) (status other : SomeStatus) → AreTold command outside.file → IsAnswered command outside status
        → IsAnswered command outside other → status ≡ other }
    ensures source_alone { (limits : Limits) (bytes : List ℕ) (input : Option (List ℕ)) (refusal : SomeRefusal) (other : Result Printout SomeRefusal) → IsOfSource refusal
        → Finds OnOneThread limits (Some bytes) input (Err refusal) → Finds OnOneThread limits (Some bytes) input other → other ≡ Err refusal }
    ensures source_alone_with_workers { (limits : Limits) (bytes : List ℕ) (input : Option (List ℕ)) (refusal : SomeRefusal) (other : Result Printout SomeRefusal) → IsOfSource refusal
        → Finds WithWorkers limits (Some bytes) input (Err refusal) → Finds WithWorkers limits (Some bytes) input other → other ≡ Err refusal }
{}

/// A feed answers its whole input: what it prints is the network's one answer on one thread to the lines that count, up to the first that is
/// refused, however the input is cut into pieces, and also where a fault ended it before all of them were read. Where it is cut off, what it printed
/// stands first in that. Of an input that `once` accepts, no line of which is too long, it prints what `once` prints.
pub fn feeds_answer_the_whole_input()
    ensures whole { (file : List ℕ → File) (source input : List ℕ) (batch fuel depth : ℕ) (bytes more : List ℕ) (program : SomeProgram) (reading : Reading) (found : Result Printout SomeRefusal)
        → (file source).told ≡ Some bytes → (file input).told ≡ Some more → IsAccepted bytes program
        → ReadsLines program.claim.input 1 program.names (counted more) reading → FindsFor (Feed source input batch fuel depth) file found
        → found ≡ Ok (fed_whole (fed_of (limits_of fuel depth) program) more reading) }
    ensures begins { (file : List ℕ → File) (source input : List ℕ) (batch fuel depth : ℕ) (bytes more : List ℕ) (program : SomeProgram) (reading : Reading) (p : Printout)
        → (file source).told ≡ Some bytes → (file input).told ≡ Some more → IsAccepted bytes program
        → ReadsLines program.claim.input 1 program.names (counted more) reading → BeginsFor (Feed source input batch fuel depth) file p
        → (rest : List ℕ) × ((fed_whole (fed_of (limits_of fuel depth) program) more reading).bytes ≡ p.bytes ++ rest) }
    ensures as_once { (file : List ℕ → File) (source input : List ℕ) (batch fuel depth : ℕ) (more : List ℕ) (p : Printout) (found : Result Printout SomeRefusal) → IsTold (file source)
        → (file input).told ≡ Some more → AreShort more → FindsFor (Once source input fuel depth) file (Ok p) → FindsFor (Feed source input batch fuel depth) file found → found ≡ Ok p }
{}

/// Where each choice, star and split of the main network of a source merges in order, a run finds what one thread does, with any number
/// of workers, and by the planned network as by the one that was written.
pub fn runs_in_order_are_as_on_one_thread()
    ensures { (file : List ℕ → File) (source input : List ℕ) (workers fuel depth queue plan : ℕ) (found : Result Printout SomeRefusal) → MergesInOrder (file source)
        → FindsFor (Run source input workers fuel depth queue plan) file found → FindsFor (Once source input fuel depth) file found }
{}

/// What a run with workers writes of itself is replayed, and ends as the run did; and what comes out by any replay a run may print: records of a
/// stream that the merges allow, up to its first fault.
pub fn traces_are_of_runs()
    ensures again { (file : List ℕ → File) (source input trace : List ℕ) (workers fuel depth queue : ℕ) (p : Printout) (found : Result Printout SomeRefusal) → IsTold (file source)
        → IsTold (file input) → (file trace).told ≡ Some p.bytes → length p.bytes ≤ TRACE_LIMIT → FindsFor (ATrace source input workers fuel depth queue) file (Ok p)
        → FindsFor (Replay source input trace fuel depth) file found → (q : Printout) × (found ≡ Ok q) × (q.ending ≡ p.ending) }
    ensures printed { (file : List ℕ → File) (source input trace : List ℕ) (workers fuel depth queue plan : ℕ) (p : Printout) → IsTold (file trace)
        → FindsFor (Replay source input trace fuel depth) file (Ok p) → FindsFor (Run source input workers fuel depth queue plan) file (Ok p) }
{}

/// An accepted source and a record file of its input type are enough: where their bytes are told, no answer of a command is a
/// refusal. A run ends as its stream does, whole or at a fault, with workers as one of the streams that may come out, and so does one that is
/// traced; the replay of a trace ends as what comes out by it; a feed ends as the answer to its lines does, where none is refused; a run over stated records ends as its stream does, where these find room for their
/// names and are of the input type; a check ends well, and so do a plan and a printing, which needs only that the source has a text.
pub fn accepted_commands_are_done()
    ensures once { (outside : Outside) (source input : List ℕ) (fuel depth : ℕ) (bytes more : List ℕ) (program : SomeProgram) (records : SomeInput) (left : SomeStatus)
        → (outside.file source).told ≡ Some bytes → (outside.file input).told ≡ Some more → IsAccepted bytes program
        → length more ≤ INPUT_LIMIT → IsTypedFile program.names program.claim more records
        → IsAnswered (Once source input fuel depth) outside left → left ≡ ending_status (ending (stream_of (limits_of fuel depth) program records)) }
    ensures run { (outside : Outside) (source input : List ℕ) (workers fuel depth queue plan : ℕ) (bytes more : List ℕ) (program : SomeProgram) (records : SomeInput) (left : SomeStatus)
        → (outside.file source).told ≡ Some bytes → (outside.file input).told ≡ Some more → IsAccepted bytes program
        → IsTypedFile program.names program.claim more records → length more ≤ INPUT_LIMIT
        → IsAnswered (Run source input workers fuel depth queue plan) outside left
        → ∥ ((stream : List ModelItem) × ComesOut (setting program (limits_of fuel depth)) program.claim.net records.records stream × (left ≡ ending_status (ending stream))) ∥₁ }
    ensures trace { (outside : Outside) (source input : List ℕ) (workers fuel depth queue : ℕ) (bytes more : List ℕ) (program : SomeProgram) (records : SomeInput) (left : SomeStatus)
        → (outside.file source).told ≡ Some bytes → (outside.file input).told ≡ Some more → IsAccepted bytes program
        → IsTypedFile program.names program.claim more records → length more ≤ INPUT_LIMIT
        → IsAnswered (ATrace source input workers fuel depth queue) outside left
        → ∥ ((stream : List ModelItem) × ComesOut (setting program (limits_of fuel depth)) program.claim.net records.records stream × (left ≡ ending_status (ending stream))) ∥₁ }
    ensures replay { (outside : Outside) (source input trace : List ℕ) (fuel depth : ℕ) (bytes more text : List ℕ) (program : SomeProgram) (records : SomeInput) (run : SomeRun) (items : List ModelItem) (left : SomeStatus)
        → (outside.file source).told ≡ Some bytes → (outside.file input).told ≡ Some more → (outside.file trace).told ≡ Some text → IsAccepted bytes program
        → IsTypedFile program.names program.claim more records → length more ≤ INPUT_LIMIT → length text ≤ TRACE_LIMIT
        → IsRunOver (setting program (limits_of fuel depth)) program.claim.net records.records run → Replays run text items
        → IsAnswered (Replay source input trace fuel depth) outside left → left ≡ ending_status (ending items) }
    ensures feed { (outside : Outside) (source input : List ℕ) (batch fuel depth : ℕ) (bytes more : List ℕ) (program : SomeProgram) (reading : Reading) (left : SomeStatus)
        → (outside.file source).told ≡ Some bytes → (outside.file input).told ≡ Some more → IsAccepted bytes program
        → length more ≤ MOST_INPUT → ReadsLines program.claim.input 1 program.names (lines_of more) reading → reading.refused ≡ None
        → IsAnswered (Feed source input batch fuel depth) outside left → left ≡ ending_status (ending (answer_of (fed_of (limits_of fuel depth) program) reading)) }
    ensures check { (outside : Outside) (source bytes : List ℕ) (program : SomeProgram) (left : SomeStatus) → (outside.file source).told ≡ Some bytes
        → IsAccepted bytes program → IsAnswered (Check source) outside left → left ≡ status.Ok }
    ensures plan { (outside : Outside) (source bytes : List ℕ) (program : SomeProgram) (left : SomeStatus) → (outside.file source).told ≡ Some bytes
        → IsAccepted bytes program → IsAnswered (Plan source) outside left → left ≡ status.Ok }
    ensures print { (outside : Outside) (source bytes text : List ℕ) (left : SomeStatus) → (outside.file source).told ≡ Some bytes → length bytes ≤ SOURCE_LIMIT
        → HasText bytes text → IsAnswered (Print source) outside left → left ≡ status.Ok }
    ensures sample { (outside : Outside) (number count : ℕ) (program : SomeProgram) (left : SomeStatus) → IsAccepted source_text program
        → AreTypedSamples program.names program.claim number count
        → IsAnswered (Sample number count) outside left → left ≡ ending_status (ending (answers_to program number count)) }
{}
