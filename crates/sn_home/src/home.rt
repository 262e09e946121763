/// Where the calls of a box are made, among logical nodes.
#[derive(Clone, Copy, PartialEq, Eq, Debug)]
pub enum Home {
    /// At the node of that number, counted round the nodes that there are.
    Node(u64),
    /// At a node for each value of a tag: of the split of that number on the way to the box, from 0 and from the outermost.
    Spread(u32),
    /// At no other node than the one that has the network.
    Here,
}
