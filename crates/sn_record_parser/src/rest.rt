ghost use Rattle.std.specs.Prelude.{◌≡◌, ◌↔◌, [], ◌∷◌, IsTrue, MatchResult};
ghost use Rattle.sn_record_parser.specs.Answers.{BeginsWith, IsWrong, mark_taken};

use crate::entry::EntryFault;
use sn_list::Seq;
use sn_record_tokens::{Mark, Token};
use std::marker::Model;
use std::vec::IntoIter;

/// The tokens of a line that are not taken yet, seen as their list. A token is moved out as it is taken.
#[derive(Drop)]
pub struct Rest {
    tokens: IntoIter<Token>,
}

impl Model for Rest {
    ghost use Rattle.std.specs.Prelude.{List};
    ghost use Rattle.std.specs.Coded.{coded_list};
    ghost use Rattle.std.specs.Vec.Iter.{into_iter_items};
    ghost use Rattle.sn_record_tokens.specs.contracts.token.Token as token;
    ghost use Rattle.sn_record_tokens.specs.declared.token.Token.{Token};

    ghost Value = { List Token };

    ghost coded = { coded_list token.the_row.coded };

    ghost view = { λ r. into_iter_items r.tokens };
}

impl Rest {
    pub fn of(tokens: Seq<Token>) -> Rest
        ensures { result ≡ tokens }
    {
        Rest {
            tokens: tokens.into_vec().into_iter(),
        }
    }

    /// Takes the next token. At the end the fault is `Wrong`.
    pub fn take(&mut self) -> Result<Token, EntryFault>
        ensures { MatchResult result (λ token. self.old ≡ token ∷ self.new) (λ fault. IsWrong fault (self.old ≡ [])) }
    {
        match self.tokens.next() {
            Some(token) => Ok(token),
            None => Err(EntryFault::Wrong),
        }
    }

    /// Takes the mark that must come next.
    pub fn want(&mut self, mark: Mark) -> Result<(), EntryFault>
        ensures { MatchResult result (λ _. self.old ≡ Token.Mark mark ∷ self.new) (λ fault. IsWrong fault (¬ BeginsWith mark self.old)) }
    {
        let token = self.take()?;
        if is_mark(&token, mark) {
            return Ok(());
        }
        Err(EntryFault::Wrong)
    }

    /// Takes a comma, behind which more must come, or else the closing mark. Whether it was a comma.
    pub fn goes_on(&mut self, close: Mark) -> Result<bool, EntryFault>
        ensures { MatchResult result (λ more. self.old ≡ Token.Mark (mark_taken close more) ∷ self.new)
            (λ fault. IsWrong fault (¬ BeginsWith Mark.Comma self.old × ¬ BeginsWith close self.old)) }
    {
        let token = self.take()?;
        if is_mark(&token, Mark::Comma) {
            return Ok(true);
        }
        if is_mark(&token, close) {
            return Ok(false);
        }
        Err(EntryFault::Wrong)
    }

    /// Nothing may be left.
    pub fn end(self) -> Result<(), EntryFault>
        ensures { MatchResult result (λ _. self ≡ []) (λ fault. IsWrong fault (¬ (self ≡ []))) }
    {
        if self.tokens.len() == 0 {
            return Ok(());
        }
        Err(EntryFault::Wrong)
    }
}

pub fn is_mark(token: &Token, mark: Mark) -> bool
    ensures { IsTrue result ↔ (token.now ≡ Token.Mark mark) }
{
    match token {
        Token::Mark(found) => *found == mark,
        _ => false,
    }
}
