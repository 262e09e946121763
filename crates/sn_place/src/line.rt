//! The lines of a text.
ghost use Rattle.std.specs.Prelude.{◌≡◌, ◌≤◌, ◌<◌, ℕ, length, slice_range, IfSome, IfNone};
ghost use Rattle.sn_place.specs.Place.{front_of, behind, line_at, line_of};

/// Where the line around a place begins.
fn line_start(text: &[u8], at: usize) -> usize
    requires { at ≤ length text.now }
    ensures front { slice_range text.now result at ≡ front_of text.now at }
    ensures before { result ≤ at }
{
    let mut start = at;
    while start > 0 && text[start - 1] != b'\n' {
        start -= 1;
    }
    start
}

/// Where the line around a place ends, in front of its line feed.
fn line_end(text: &[u8], at: usize) -> usize
    requires { at ≤ length text.now }
    ensures behind { slice_range text.now at result ≡ behind text.now at }
    ensures after { at ≤ result }
    ensures within { result ≤ length text.now }
{
    let mut end = at;
    while end < text.len() && text[end] != b'\n' {
        end += 1;
    }
    end
}

/// Where the line around a place begins and ends, without its line feed.
pub fn line_around(text: &[u8], at: usize) -> (usize, usize)
    requires { at ≤ length text.now }
    ensures line { slice_range text.now result.0 result.1 ≡ line_of text.now at }
    ensures before { result.0 ≤ at }
    ensures after { at ≤ result.1 }
    ensures within { result.1 ≤ length text.now }
{
    (line_start(text, at), line_end(text, at))
}

/// Where the line of that number begins, if the text has so many lines.
pub fn numbered_line(text: &[u8], number: usize) -> Option<usize>
    requires { 1 ≤ number }
    ensures found { IfSome result (λ at. line_at text.now at ≡ number) }
    ensures within { IfSome result (λ at. at ≤ length text.now) }
    ensures none { IfNone result (line_at text.now (length text.now) < number) }
{
    let mut line = 1;
    if number == 1 {
        return Some(0);
    }
    for i in 0..text.len() {
        if text[i] == b'\n' {
            line += 1;
            if line == number {
                return Some(i + 1);
            }
        }
    }
    None
}
