//! Laws of what tokens say, each as the contract of a function that does nothing.
ghost use Rattle.std.specs.Prelude.{◌≡◌, ◌++◌, ℕ, List, map};
ghost use Rattle.sn_ast.specs.Terminals.{place_of};
ghost use Rattle.sn_ast.specs.declared.terminal.Terminal.{Terminal as SomeTerminal};
ghost use Rattle.sn_lexer.specs.Placed.{ArePlaced};
ghost use Rattle.sn_lexer.specs.declared.token.Token.{Token as SomeToken};
ghost use Rattle.sn_lexer.specs.declared.token.TokenKind.{TokenKind as SomeKind};
ghost use Rattle.sn_terminal.specs.Words.{IsSpelled, Say, Says};

/// A word of a kind says one thing.
pub fn words_say_one_thing()
    ensures once { (kind : SomeKind) (bytes : List ℕ) (at : ℕ) (x y : SomeTerminal) → Says kind bytes at x → Says kind bytes at y → x ≡ y }
    ensures something { (kind : SomeKind) (bytes : List ℕ) (at : ℕ) → IsSpelled kind bytes → (x : SomeTerminal) × Says kind bytes at x }
{}

/// The tokens of a source say one list of terminals.
pub fn tokens_say_one_thing()
    ensures once { (source : List ℕ) (tokens : List SomeToken) (xs ys : List SomeTerminal) → Say source tokens xs → Say source tokens ys → xs ≡ ys }
    ensures something { (source : List ℕ) (from : ℕ) (tokens : List SomeToken) → ArePlaced source from tokens → (xs : List SomeTerminal) × Say source tokens xs }
{}

/// Tokens in a row say what the first of them say, and then what the others say.
pub fn tokens_say_in_order()
    ensures joined { (source : List ℕ) (ts us : List SomeToken) (xs ys : List SomeTerminal) → Say source ts xs → Say source us ys → Say source (ts ++ us) (xs ++ ys) }
    ensures split { (source : List ℕ) (ts us : List SomeToken) (zs : List SomeTerminal) → Say source (ts ++ us) zs → (xs : List SomeTerminal) × (ys : List SomeTerminal) × Say source ts xs × Say source us ys × (zs ≡ xs ++ ys) }
{}

/// Each terminal stands where its token begins.
pub fn terminals_keep_places()
    ensures { (source : List ℕ) (tokens : List SomeToken) (xs : List SomeTerminal) → Say source tokens xs → map place_of xs ≡ map (λ t. t.start) tokens }
{}
