//! The words of keywords and symbols.
ghost use Rattle.std.specs.Prelude.{◌≡◌, ◌≢◌, MatchOption};
ghost use Rattle.sn_ast.specs.declared.terminal.Keyword.{Keyword as SomeKeyword};
ghost use Rattle.sn_ast.specs.declared.terminal.Symbol.{Symbol as SomeSymbol};
ghost use Rattle.sn_terminal.specs.Words.{keyword_word, symbol_word};

use sn_ast::{Keyword, Symbol};

const KEYWORDS: [(&str, Keyword); 12] = [
    ("box", Keyword::Box),
    ("net", Keyword::Net),
    ("connect", Keyword::Connect),
    ("type", Keyword::Type),
    ("typesig", Keyword::TypeSig),
    ("if", Keyword::If),
    ("then", Keyword::Then),
    ("else", Keyword::Else),
    ("let", Keyword::Let),
    ("in", Keyword::In),
    ("out", Keyword::Out),
    ("fun", Keyword::Fun),
];

const SYMBOLS: [(&str, Symbol); 33] = [
    ("(", Symbol::OpenParen),
    (")", Symbol::CloseParen),
    ("{", Symbol::OpenBrace),
    ("}", Symbol::CloseBrace),
    ("[", Symbol::OpenBracket),
    ("]", Symbol::CloseBracket),
    ("[|", Symbol::OpenSync),
    ("|]", Symbol::CloseSync),
    (",", Symbol::Comma),
    (";", Symbol::Semicolon),
    (":", Symbol::Colon),
    ("=", Symbol::Assign),
    ("==", Symbol::Equal),
    ("!=", Symbol::NotEqual),
    ("<", Symbol::Less),
    ("<=", Symbol::LessEqual),
    (">", Symbol::Greater),
    (">=", Symbol::GreaterEqual),
    ("+", Symbol::Plus),
    ("-", Symbol::Minus),
    ("*", Symbol::Star),
    ("/", Symbol::Slash),
    ("%", Symbol::Percent),
    ("&&", Symbol::AndAnd),
    ("||", Symbol::BarBar),
    ("|", Symbol::Bar),
    ("!", Symbol::Bang),
    ("!!", Symbol::BangBang),
    ("**", Symbol::StarStar),
    ("..", Symbol::Dots),
    ("->", Symbol::Arrow),
    ("?", Symbol::Question),
    ("@", Symbol::At),
];

/// The keyword that the bytes are, if they are one.
pub fn keyword(word: &[u8]) -> Option<Keyword>
    ensures { MatchOption result ((k : SomeKeyword) → word.now ≢ keyword_word k) (λ k. word.now ≡ keyword_word k) }
{
    let entry = KEYWORDS.iter().find(|entry| entry.0.as_bytes() == word)?;
    Some(entry.1)
}

/// The symbol that the bytes are, if they are one.
pub fn symbol(word: &[u8]) -> Option<Symbol>
    ensures { MatchOption result ((s : SomeSymbol) → word.now ≢ symbol_word s) (λ s. word.now ≡ symbol_word s) }
{
    let entry = SYMBOLS.iter().find(|entry| entry.0.as_bytes() == word)?;
    Some(entry.1)
}
