//! Laws of the command that words give. Each function does nothing: its contract is the law.
ghost use Rattle.std.specs.Prelude.{◌≡◌, ◌<◌, ◌∷◌, ◌++◌, [], codes, false, length, map, None, Some};
ghost use Rattle.std.specs.List.{list_any};
ghost use Rattle.sn_words.specs.Command.{IsInRange};
ghost use Rattle.sn_words.specs.Spelling.{dashed, with_value, words_of, HasNames};
ghost use Rattle.sn_words.specs.Words.{command_by, command_of, is_equals, option, parts_of, positional, Form, Part, Text};
ghost use Rattle.sn_words.specs.declared.command.Command.{Command as ACommand};
ghost use Rattle.sn_words.specs.declared.command.Command.TheVariants.{Run as ARun, Once as AnOnce, Plan as APlan, Trace as ATrace, Replay as AReplay, Feed as AFeed, Sample as ASample};
ghost use Rattle.std.specs.Prelude.{List};

/// Each command whose numbers are in range, and whose names are not empty, is the command of some words.
pub fn each_command_has_words()
    ensures { (command : ACommand) → IsInRange command → HasNames command → command_of (words_of command) ≡ Some command }
{}

/// Behind `--` each word is positional, whatever it is.
pub fn all_are_positional_behind_dashes()
    ensures { (words : List Text) → parts_of None (codes "--" ∷ words) ≡ Some (map positional words) }
{}

/// A value may stand in its option's word or behind it.
pub fn a_value_stands_in_the_word_or_behind_it()
    ensures { (name : Text) (value : Text) (words : List Text) → 0 < length name → list_any is_equals name ≡ false
        → parts_of None (with_value name value ∷ words) ≡ parts_of None (dashed name ∷ value ∷ words) }
{}

/// An option and a positional word beside it may change places: only the order of the positional words counts.
pub fn options_stand_anywhere()
    ensures { (form : Form) (before : List Part) (after : List Part) (name : Text) (value : Text) (word : Text)
        → command_by form (before ++ option name value ∷ positional word ∷ after) ≡ command_by form (before ++ positional word ∷ option name value ∷ after) }
{}

/// Words and the commands that they give.
pub fn some_words()
    ensures given { command_of (codes "run" ∷ codes "--workers=8" ∷ codes "s" ∷ codes "--" ∷ codes "i" ∷ []) ≡ Some (ARun (codes "s") (codes "i") 8 1_000_000 1_000 16 0) }
    ensures planned { command_of (codes "run" ∷ codes "s" ∷ codes "i" ∷ codes "--plan" ∷ codes "1" ∷ []) ≡ Some (ARun (codes "s") (codes "i") 4 1_000_000 1_000 16 1) }
    ensures between { command_of (codes "once" ∷ codes "-" ∷ codes "--fuel" ∷ codes "0000000005" ∷ codes "i" ∷ []) ≡ Some (AnOnce (codes "-") (codes "i") 5 1_000) }
    ensures dashed { command_of (codes "once" ∷ codes "--" ∷ codes "--fuel" ∷ codes "--" ∷ []) ≡ Some (AnOnce (codes "--fuel") (codes "--") 1_000_000 1_000) }
    ensures traced { command_of (codes "trace" ∷ codes "--queue" ∷ codes "1" ∷ codes "s" ∷ codes "i" ∷ []) ≡ Some (ATrace (codes "s") (codes "i") 4 1_000_000 1_000 1) }
    ensures replayed { command_of (codes "replay" ∷ codes "s" ∷ codes "i" ∷ codes "t" ∷ []) ≡ Some (AReplay (codes "s") (codes "i") (codes "t") 1_000_000 1_000) }
    ensures fed { command_of (codes "feed" ∷ codes "--batch=3" ∷ codes "s" ∷ codes "i" ∷ []) ≡ Some (AFeed (codes "s") (codes "i") 3 1_000_000 1_000) }
    ensures plan { command_of (codes "plan" ∷ codes "s" ∷ []) ≡ Some (APlan (codes "s")) }
    ensures seed { command_of (codes "sample" ∷ codes "2147483647" ∷ codes "0" ∷ []) ≡ Some (ASample 2_147_483_647 0) }
{}

/// Words that give no command.
pub fn some_other_words()
    ensures none { command_of [] ≡ None }
    ensures small { command_of (codes "run" ∷ codes "s" ∷ codes "i" ∷ codes "--workers" ∷ codes "0" ∷ []) ≡ None }
    ensures large { command_of (codes "run" ∷ codes "s" ∷ codes "i" ∷ codes "--workers" ∷ codes "65" ∷ []) ≡ None }
    ensures plans { command_of (codes "run" ∷ codes "s" ∷ codes "i" ∷ codes "--plan" ∷ codes "2" ∷ []) ≡ None }
    ensures twice { command_of (codes "run" ∷ codes "s" ∷ codes "i" ∷ codes "--fuel" ∷ codes "5" ∷ codes "--fuel" ∷ codes "5" ∷ []) ≡ None }
    ensures unknown { command_of (codes "once" ∷ codes "s" ∷ codes "i" ∷ codes "--workers" ∷ codes "2" ∷ []) ≡ None }
    ensures short { command_of (codes "run" ∷ codes "s" ∷ codes "i" ∷ codes "--work" ∷ codes "2" ∷ []) ≡ None }
    ensures missing { command_of (codes "run" ∷ codes "s" ∷ codes "i" ∷ codes "--fuel" ∷ []) ≡ None }
    ensures plus { command_of (codes "run" ∷ codes "s" ∷ codes "i" ∷ codes "--fuel" ∷ codes "+5" ∷ []) ≡ None }
    ensures long { command_of (codes "run" ∷ codes "s" ∷ codes "i" ∷ codes "--fuel=00000000005" ∷ []) ≡ None }
    ensures letter { command_of (codes "run" ∷ codes "s" ∷ codes "-i" ∷ []) ≡ None }
    ensures empty { command_of (codes "run" ∷ codes "s" ∷ [] ∷ []) ≡ None }
    ensures help { command_of (codes "help" ∷ []) ≡ None }
    ensures few { command_of (codes "check" ∷ []) ≡ None }
    ensures many { command_of (codes "check" ∷ codes "s" ∷ codes "t" ∷ []) ≡ None }
    ensures batch { command_of (codes "feed" ∷ codes "s" ∷ codes "i" ∷ codes "--batch" ∷ codes "1048577" ∷ []) ≡ None }
    ensures untraced { command_of (codes "replay" ∷ codes "s" ∷ codes "i" ∷ []) ≡ None }
    ensures alone { command_of (codes "replay" ∷ codes "--workers" ∷ codes "2" ∷ codes "s" ∷ codes "i" ∷ codes "t" ∷ []) ≡ None }
{}
