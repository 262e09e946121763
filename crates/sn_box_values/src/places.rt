ghost use Rattle.std.specs.Prelude.{◌≡◌, ◌<ℤ◌, MatchOption, pos};
ghost use Rattle.std.specs.Option.{option_copied, option_map};
ghost use Rattle.sn_net.specs.BoxValues.{element, section};

/// The number as a place, where it isn't negative.
fn place_of(n: i64) -> Option<usize>
    ensures { MatchOption result (n <ℤ pos 0) (λ place. n ≡ pos place) }
{
    if n < 0 { None } else { Some(n as usize) }
}

/// The element at the place, counted from 0.
pub fn element<T>(elements: &[T], place: i64) -> Option<&T>
    ensures { option_copied result ≡ element elements.now place }
{
    elements.get(place_of(place)?)
}

/// The elements from one place up to before another, where the places stand in order within the list.
pub fn section<T>(elements: &[T], from: i64, to: i64) -> Option<&[T]>
    ensures { option_map (λ part. part.now) result ≡ section elements.now from to }
{
    let from = place_of(from)?;
    let to = place_of(to)?;
    if from <= to && to <= elements.len() {
        Some(&elements[..to][from..])
    } else {
        None
    }
}
