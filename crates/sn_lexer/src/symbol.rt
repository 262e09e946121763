ghost use Rattle.std.specs.Prelude.{◌≡◌, [], ◌∷◌, MatchOption};
ghost use Rattle.std.specs.Str.{chars};
ghost use Rattle.sn_lexer.specs.Spelling.{is_symbol};
ghost use Rattle.sn_lexer.specs.Fronts.{BeginsNoSymbol, IsSymbolUpTo};

use crate::text::split_first;

const LONE: [char; 21] = [
    '(', ')', '{', '}', '[', ']', ',', ';', ':', '=', '<', '>', '+', '-', '*', '/', '%', '|', '!',
    '?', '@',
];

const PAIRS: [(char, char); 12] = [
    ('[', '|'),
    ('|', ']'),
    ('=', '='),
    ('!', '='),
    ('<', '='),
    ('>', '='),
    ('&', '&'),
    ('|', '|'),
    ('!', '!'),
    ('*', '*'),
    ('.', '.'),
    ('-', '>'),
];

fn is_lone(c: char) -> bool
    ensures { result ≡ is_symbol (c ∷ []) }
{
    LONE.contains(&c)
}

fn is_pair(first: char, second: char) -> bool
    ensures { result ≡ is_symbol (first ∷ second ∷ []) }
{
    PAIRS.contains(&(first, second))
}

/// What follows the longest symbol in front.
pub fn read_symbol(text: &str) -> Option<&str>
    ensures { MatchOption result (BeginsNoSymbol (chars text.now))
        (λ rest. IsSymbolUpTo (chars text.now) (chars rest.now)) }
{
    let (first, rest) = split_first(text)?;
    if let Some((second, after_both)) = split_first(rest) {
        if is_pair(first, second) {
            return Some(after_both);
        }
    }
    if is_lone(first) { Some(rest) } else { None }
}
