//! What the program says of its words.
ghost use Rattle.std.specs.Prelude.{◌≡◌};
ghost use Rattle.sn_words.specs.Command.{usage_text};

/// The line that says which words the program knows.
pub fn usage_line() -> &'static [u8]
    ensures { result.now ≡ usage_text }
{
    b"usage: snet run SOURCE INPUT [--workers N] [--fuel N] [--depth N] [--queue N] | once SOURCE INPUT [--fuel N] [--depth N] | check SOURCE | print SOURCE | sample SEED COUNT\n"
}
