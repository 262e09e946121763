ghost use Rattle.std.specs.Prelude.{◌≡◌};
ghost use Rattle.sn_sample.specs.Source.{source_text};

const SOURCE: &[u8] =
    b"box twice ((v) -> (w)) { out 1(v + v) } net main ({v,<k>,<n>} -> {w,<k>,<n>,<s>}) connect twice .. [{<n>} -> {<n>,<s>=0}] .. (([{<n>,<s>} -> {<n>=<n>-1,<s>=<s>+<n>}] ** {<n>} if (<n> == 0)) !! <k>);";

/// The built-in source. Takes no memory.
pub fn sample_source() -> &'static [u8]
    ensures { result.now ≡ source_text }
{
    SOURCE
}
