//! The parts of a network by paths.
ghost use Rattle.std.specs.Prelude.{◌≡◌};
ghost use Rattle.std.specs.Option.{option_copied};
ghost use Rattle.sn_net.specs.declared.net.Net.TheViews.{out-Net};
ghost use Rattle.sn_view.specs.Parts.{part_at, part_below};

use sn_net::Net;

/// A part of one level, by its number.
fn part_below(net: &Net, i: u32) -> Option<&Net>
    ensures { option_copied result ≡ part_below (out-Net net.now) i }
{
    match net {
        Net::Serial { left, right } => match i {
            0 => Some(left.get()),
            1 => Some(right.get()),
            _ => None,
        },
        Net::Choice { branches, .. } => {
            if (i as usize) < branches.len() {
                Some(branches.at(i as usize))
            } else {
                None
            }
        }
        Net::Star { body, .. } => { if i == 0 { Some(body.get()) } else { None } }
        Net::Split { body, .. } => { if i == 0 { Some(body.get()) } else { None } }
        Net::Box { .. } | Net::Filter(_) | Net::Sync { .. } => None,
    }
}

/// The part at the end of a path. It costs time in the length of the path, which is no longer than the network is high.
pub fn part_at<'a>(net: &'a Net, path: &[u32]) -> Option<&'a Net>
    ensures { option_copied result ≡ part_at net.now path.now }
{
    let mut part = net;
    for i in path {
        match part_below(part, *i) {
            Some(below) => part = below,
            None => return None,
        }
    }
    Some(part)
}
