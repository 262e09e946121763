//! What follows from the definitions, as contracts of functions that do nothing.
ghost use Rattle.std.specs.Prelude.{◌≡◌, ℕ, Some, is_some};
ghost use Rattle.sn_view.specs.View.{Node, View, Merge, Route, changed_at};
ghost use Rattle.sn_view.specs.Next.{node_at, enabled, after, routing_of, send};
ghost use Rattle.sn_node.specs.Merged.{Moved, merged};
ghost use Rattle.sn_node.specs.Routed.{Routed, routed_node, sent};

/// A merge may happen where the node may move, and then the node moves and its entries are sent.
pub fn merges_by_node()
    ensures enabled { (i : ℕ) (n : Node) (g : View) (c : ℕ) → node_at i g ≡ Some n → enabled g (Merge i c) ≡ is_some (merged n c) }
    ensures after { (i : ℕ) (n : Node) (g : View) (c : ℕ) (m : Moved) → node_at i g ≡ Some n → merged n c ≡ Some m → after g (Merge i c) ≡ send n.goes m.entries (record g { nodes = changed_at i (λ old. m.node) g.nodes }) }
{}

/// Routing may happen where the node may be routed at, and then the node moves and entries go to children.
pub fn routes_by_node()
    ensures enabled { (i : ℕ) (n : Node) (g : View) → node_at i g ≡ Some n → enabled g (Route i) ≡ is_some (routed_node n (routing_of g n)) }
    ensures after { (i : ℕ) (n : Node) (g : View) (r : Routed) → node_at i g ≡ Some n → routed_node n (routing_of g n) ≡ Some r → after g (Route i) ≡ sent r.sends (record g { nodes = changed_at i (λ old. r.node) g.nodes }) }
{}
