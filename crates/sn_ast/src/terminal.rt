ghost use Rattle.std.specs.Prelude.{◌≡◌, ℕ, MatchOption};
ghost use Rattle.sn_ast.specs.Terminals.{closing, infix_of, label_of, link_of, place_of, sign_of};
ghost use Rattle.sn_ast.specs.declared.terminal.Terminal.TheVariants as some_terminal;

use crate::label::{Ident, LabelAt, Text};
use crate::tag_expr::Operator;

#[derive(Clone, Copy, PartialEq, Eq)]
pub enum Keyword {
    Box,
    Net,
    Connect,
    Type,
    TypeSig,
    If,
    Then,
    Else,
    Let,
    In,
    Out,
    Fun,
}

#[derive(Clone, Copy, PartialEq, Eq)]
pub enum Symbol {
    OpenParen,
    CloseParen,
    OpenBrace,
    CloseBrace,
    OpenBracket,
    CloseBracket,
    OpenSync,
    CloseSync,
    Comma,
    Semicolon,
    Colon,
    Assign,
    Equal,
    NotEqual,
    Less,
    LessEqual,
    Greater,
    GreaterEqual,
    Plus,
    Minus,
    Star,
    Slash,
    Percent,
    AndAnd,
    BarBar,
    Bar,
    Bang,
    BangBang,
    StarStar,
    Dots,
    Arrow,
    Question,
    At,
}

/// The brackets that labels and arguments stand in.
#[derive(Clone, Copy, PartialEq, Eq)]
pub enum Bracket {
    Paren,
    Brace,
    Square,
}

/// What stands between two operands, from the tightest to the loosest.
#[derive(Clone, Copy, PartialEq, Eq)]
pub enum Infix {
    Product(Operator),
    Sum(Operator),
    Comparison(Operator),
    Conjunction,
    Disjunction,
}

/// What stands before an operand.
#[derive(Clone, Copy, PartialEq, Eq)]
pub enum Sign {
    Minus,
    Not,
}

/// What stands between the branches of a choice, or after a part of a network that is repeated or placed. `det` tells
/// the deterministic form, which is written with the doubled symbol.
#[derive(Clone, Copy, PartialEq, Eq)]
pub enum Link {
    Branch { det: bool },
    Star { det: bool },
    Split { det: bool },
    Place,
}

impl Bracket {
    /// The symbol that closes it.
    pub fn closing(self) -> Symbol
        ensures { result ≡ closing self }
    {
        match self {
            Bracket::Paren => Symbol::CloseParen,
            Bracket::Brace => Symbol::CloseBrace,
            Bracket::Square => Symbol::CloseBracket,
        }
    }
}

impl Symbol {
    /// What the symbol is between two operands, if it is an operator.
    pub fn infix(self) -> Option<Infix>
        ensures { result ≡ infix_of self }
    {
        match self {
            Symbol::Star => Some(Infix::Product(Operator::Mul)),
            Symbol::Slash => Some(Infix::Product(Operator::Div)),
            Symbol::Percent => Some(Infix::Product(Operator::Rem)),
            Symbol::Plus => Some(Infix::Sum(Operator::Add)),
            Symbol::Minus => Some(Infix::Sum(Operator::Sub)),
            Symbol::Less => Some(Infix::Comparison(Operator::Lt)),
            Symbol::LessEqual => Some(Infix::Comparison(Operator::Le)),
            Symbol::Greater => Some(Infix::Comparison(Operator::Gt)),
            Symbol::GreaterEqual => Some(Infix::Comparison(Operator::Ge)),
            Symbol::Equal => Some(Infix::Comparison(Operator::Eq)),
            Symbol::NotEqual => Some(Infix::Comparison(Operator::Ne)),
            Symbol::AndAnd => Some(Infix::Conjunction),
            Symbol::BarBar => Some(Infix::Disjunction),
            _ => None,
        }
    }

    /// What the symbol is after a part of a network, if it chooses, repeats or places.
    pub fn link(self) -> Option<Link>
        ensures { result ≡ link_of self }
    {
        match self {
            Symbol::BarBar => Some(Link::Branch { det: true }),
            Symbol::Bar => Some(Link::Branch { det: false }),
            Symbol::StarStar => Some(Link::Star { det: true }),
            Symbol::Star => Some(Link::Star { det: false }),
            Symbol::BangBang => Some(Link::Split { det: true }),
            Symbol::Bang => Some(Link::Split { det: false }),
            Symbol::At => Some(Link::Place),
            _ => None,
        }
    }

    /// What the symbol is before an operand, if it is a sign.
    pub fn sign(self) -> Option<Sign>
        ensures { result ≡ sign_of self }
    {
        match self {
            Symbol::Minus => Some(Sign::Minus),
            Symbol::Bang => Some(Sign::Not),
            _ => None,
        }
    }
}

/// A token as the grammar sees it: with what it says, and its place.
#[derive(Drop)]
pub enum Terminal {
    Name(Ident),
    Tag(Ident),
    Number { value: i64, at: u32 },
    Literal { text: Text, at: u32 },
    Keyword { keyword: Keyword, at: u32 },
    Symbol { symbol: Symbol, at: u32 },
}

impl Terminal {
    /// The token's place, if it is this symbol.
    pub fn symbol_at(&self, symbol: Symbol) -> Option<u32>
        ensures { MatchOption result ((at : ℕ) → self.now ≡ some_terminal.Symbol symbol at → ⊥) (λ at. self.now ≡ some_terminal.Symbol symbol at) }
    {
        match self {
            Terminal::Symbol { symbol: this, at } => {
                if *this == symbol {
                    return Some(*at);
                }
                None
            }
            _ => None,
        }
    }

    /// The token's place, if it is this keyword.
    pub fn keyword_at(&self, keyword: Keyword) -> Option<u32>
        ensures { MatchOption result ((at : ℕ) → self.now ≡ some_terminal.Keyword keyword at → ⊥) (λ at. self.now ≡ some_terminal.Keyword keyword at) }
    {
        match self {
            Terminal::Keyword { keyword: this, at } => {
                if *this == keyword {
                    return Some(*at);
                }
                None
            }
            _ => None,
        }
    }

    pub fn place(&self) -> u32
        ensures { result ≡ place_of self.now }
    {
        match self {
            Terminal::Name(name) => name.at,
            Terminal::Tag(name) => name.at,
            Terminal::Number { at, .. } => *at,
            Terminal::Literal { at, .. } => *at,
            Terminal::Keyword { at, .. } => *at,
            Terminal::Symbol { at, .. } => *at,
        }
    }

    /// The label that the token is, if it is a name or a tag.
    pub fn into_label(self) -> Option<LabelAt>
        ensures { result ≡ label_of self }
    {
        match self {
            Terminal::Name(name) => Some(LabelAt { tag: false, name }),
            Terminal::Tag(name) => Some(LabelAt { tag: true, name }),
            _ => None,
        }
    }
}
