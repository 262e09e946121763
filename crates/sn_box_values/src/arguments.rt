ghost use Rattle.std.specs.Prelude.{◌≡◌, ◌≢◌, ◌∷◌, [], length, MatchOption};

use crate::datum::Datum;
use sn_list::Seq;

/// Both values, where there are two.
pub fn pair(values: Seq<Datum>) -> Option<(Datum, Datum)>
    ensures { MatchOption result (length values ≢ 2) (λ both. values ≡ both.0 ∷ both.1 ∷ []) }
{
    if values.len() != 2 {
        return None;
    }
    let mut values = values.into_vec();
    let second = values.pop()?;
    let first = values.pop()?;
    Some((first, second))
}
