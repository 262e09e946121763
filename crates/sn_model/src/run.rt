ghost use Rattle.sn_net.specs.WellFormed.{FitsBoxes};
ghost use Rattle.sn_model.specs.Typed.{AreTyped};
ghost use Rattle.sn_model.specs.Ranges.{IsWithin};
ghost use Rattle.sn_model.specs.declared.run.TheConstants.{LONGEST_QUEUE, MOST_FUEL, MOST_REPLICAS};

use sn_net::{Boxes, Net};
use sn_record::Items;

/// The most units of fuel that a box call may be given.
pub const MOST_FUEL: u64 = 1_000_000_000;

/// The most replicas that a star may be allowed.
pub const MOST_REPLICAS: u32 = 2_000;

/// The most entries that a queue may hold.
pub const LONGEST_QUEUE: u32 = 1_024;

/// A network with all that it needs to run. Its numbers are in their ranges, the network is well formed over the boxes, and the
/// items are typed for it.
#[derive(Drop)]
pub struct Run {
    net: Net,
    boxes: Boxes,
    fuel: u64,
    depth: u32,
    queue: u32,
    items: Items,
    pub ghost some_fuel: { IsWithin fuel MOST_FUEL },
    pub ghost some_replicas: { IsWithin depth MOST_REPLICAS },
    pub ghost some_room: { IsWithin queue LONGEST_QUEUE },
    pub ghost formed: { FitsBoxes boxes net },
    pub ghost typed: { AreTyped boxes net items },
}

impl Run {
    ghost use Rattle.std.specs.Prelude.{◌≡◌};
    ghost use Rattle.sn_model.specs.Run.{boxes_of, depth_of, fuel_of, items_of, net_of, queue_of};

    /// A run of `net` over the boxes that it calls: units of `fuel` for each call of a box, at most `depth` replicas of a star, at
    /// most `queue` entries in a queue between two threads, and the items that flow in, in order.
    pub fn new(net: Net, boxes: Boxes, fuel: u64, depth: u32, queue: u32, items: Items) -> Run
        requires fuel { IsWithin fuel MOST_FUEL }
        requires depth { IsWithin depth MOST_REPLICAS }
        requires queue { IsWithin queue LONGEST_QUEUE }
        requires formed { FitsBoxes boxes net }
        requires typed { AreTyped boxes net items }
        ensures net { net_of result ≡ net }
        ensures boxes { boxes_of result ≡ boxes }
        ensures fuel { fuel_of result ≡ fuel }
        ensures depth { depth_of result ≡ depth }
        ensures queue { queue_of result ≡ queue }
        ensures items { items_of result ≡ items }
    {
        Run {
            net,
            boxes,
            fuel,
            depth,
            queue,
            items,
        }
    }

    pub fn net(&self) -> &Net
        ensures net { result.now ≡ net_of self.now }
        ensures formed { FitsBoxes (boxes_of self.now) result.now }
    {
        &self.net
    }

    /// The boxes that the network calls, by their numbers.
    pub fn boxes(&self) -> &Boxes
        ensures { result.now ≡ boxes_of self.now }
    {
        &self.boxes
    }

    /// Units of fuel for each call of a box.
    pub fn fuel(&self) -> u64
        ensures fuel { result ≡ fuel_of self.now }
        ensures within { IsWithin result MOST_FUEL }
    {
        self.fuel
    }

    /// How many replicas each star may have.
    pub fn depth(&self) -> u32
        ensures depth { result ≡ depth_of self.now }
        ensures within { IsWithin result MOST_REPLICAS }
    {
        self.depth
    }

    /// How many entries a queue between two threads holds.
    pub fn queue(&self) -> u32
        ensures queue { result ≡ queue_of self.now }
        ensures within { IsWithin result LONGEST_QUEUE }
    {
        self.queue
    }

    /// What flows in, in order.
    pub fn items(&self) -> &Items
        ensures items { result.now ≡ items_of self.now }
        ensures typed { AreTyped (boxes_of self.now) (net_of self.now) result.now }
    {
        &self.items
    }
}

fn may_cross<T: Send + Sync>(_: &T) {}

/// A run may go to another thread, and threads may share one.
pub fn runs_may_cross(run: &Run) {
    may_cross(run);
}
