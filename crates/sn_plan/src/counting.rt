//! How many nodes a network has.
ghost use Rattle.std.specs.Prelude.{◌≡◌, ◌≤◌, ◌^◌, IfNone, IfSome, map, sum};
ghost use Rattle.sn_net.specs.Net.{nodes};

use sn_net::Net;

/// How many nodes a network has, if so many can be counted.
#[cycle(counting)]
pub fn count_nodes(net: &Net) -> Option<u64>
    ensures some { IfSome result (λ n. n ≡ nodes net.now) }
    ensures none { IfNone result (2 ^ 64 ≤ nodes net.now) }
{
    match net {
        Net::Box { .. } | Net::Filter(_) | Net::Sync { .. } => Some(1),
        Net::Serial { left, right } => {
            let left = count_nodes(left.get())?;
            let right = count_nodes(right.get())?;
            left.checked_add(right)?.checked_add(1)
        }
        Net::Choice { branches, .. } => count_each(branches.as_slice())?.checked_add(1),
        Net::Star { body, .. } | Net::Split { body, .. } => {
            count_nodes(body.get())?.checked_add(1)
        }
    }
}

/// How many nodes the nets have together, if so many can be counted.
#[cycle(counting)]
fn count_each(nets: &[Net]) -> Option<u64>
    ensures some { IfSome result (λ n. n ≡ sum (map nodes nets.now)) }
    ensures none { IfNone result (2 ^ 64 ≤ sum (map nodes nets.now)) }
{
    let mut count: u64 = 0;
    for net in nets {
        let nodes = count_nodes(net)?;
        count = count.checked_add(nodes)?;
    }
    Some(count)
}
