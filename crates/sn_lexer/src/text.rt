ghost use Rattle.std.specs.Prelude.{◌≡◌, ◌≤◌, [], ◌∷◌, length, MatchOption};
ghost use Rattle.std.specs.Str.{chars};
ghost use Rattle.sn_lexer.specs.Lexes.{place as place_of};
ghost use Rattle.sn_lexer.specs.Fronts.{BeginsNot};

/// The first character, and what follows it.
pub fn split_first(text: &str) -> Option<(char, &str)>
    ensures { MatchOption result (chars text.now ≡ [])
        (λ p. chars text.now ≡ p.0 ∷ chars p.1.now) }
{
    let mut chars = text.chars();
    let first = chars.next()?;
    Some((first, chars.as_str()))
}

/// What follows `c` in front.
pub fn after(text: &str, c: char) -> Option<&str>
    ensures { MatchOption result (BeginsNot c (chars text.now))
        (λ rest. chars text.now ≡ c ∷ chars rest.now) }
{
    let (first, rest) = split_first(text)?;
    if first == c { Some(rest) } else { None }
}

/// The place of `rest`, an end of a source of `total` bytes: it is no longer than the source.
pub fn place(total: usize, rest: &str) -> u32
    requires { total ≤ 1048576 }
    ensures { result ≡ place_of total (chars rest.now) }
{
    total.saturating_sub(rest.len()) as u32
}
