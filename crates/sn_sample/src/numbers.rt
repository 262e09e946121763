ghost use Rattle.std.specs.Prelude.{◌≡◌, ◌<◌};
ghost use Rattle.sn_sample.specs.Numbers.{next};

/// The number behind another, which is below 2,147,483,648.
pub fn next_number(x: u32) -> u32
    ensures next { result ≡ next x }
    ensures below { result < 2_147_483_648 }
{
    ((1_103_515_245 * x as u64 + 12_345) % 2_147_483_648) as u32
}
