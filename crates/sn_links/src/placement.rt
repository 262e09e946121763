//! Where the calls of a run's boxes are made.
ghost use Rattle.std.specs.Prelude.{◌≤◌};

use sn_home::Home;
use sn_list::Seq;

/// The home of each box, by its number, and how many logical nodes there are.
#[derive(Drop)]
pub struct Placement {
    homes: Seq<Home>,
    nodes: u32,
    pub ghost some_nodes: { 1 ≤ nodes },
}

impl Placement {
    ghost use Rattle.std.specs.Prelude.{◌≡◌, slice_get};
    ghost use Rattle.sn_links.specs.Nodes.{homes_of, nodes_of};

    pub fn new(homes: Seq<Home>, nodes: u32) -> Placement
        requires { 1 ≤ nodes }
        ensures homes { homes_of result ≡ homes }
        ensures nodes { nodes_of result ≡ nodes }
    {
        Placement { homes, nodes }
    }

    /// The home of the box of that number, if there is one.
    pub fn home(&self, number: u32) -> Option<Home>
        ensures { result ≡ slice_get (homes_of self.now) number }
    {
        self.homes.as_slice().get(number as usize).copied()
    }

    /// How many logical nodes there are.
    pub fn nodes(&self) -> u32
        ensures nodes { result ≡ nodes_of self.now }
        ensures some { 1 ≤ result }
    {
        self.nodes
    }
}
