//! The nodes that a part of a network is made of.
ghost use Rattle.std.specs.Prelude.{◌≡◌, ◌+◌, ◌++◌, ◌∷◌, ◌≤◌, [], IfOk, OnOk, length, map, ℕ};
ghost use Rattle.std.specs.List.{All};
ghost use Rattle.sn_net.specs.WellFormed.{FitsBoxes, most_branches};
ghost use Rattle.sn_model.specs.Run.{boxes_of, depth_of};
ghost use Rattle.sn_net.specs.Cell.{new_cell};
ghost use Rattle.sn_net.specs.declared.net.Merge.{Merge as Kind};
ghost use Rattle.sn_view.specs.View as view;
ghost use Rattle.sn_view.specs.Parts.{branch_children, choice_plan, dispatcher, new_node, own_child, plan, serial_plan};
ghost use Rattle.sn_node.specs.Seen.{node_of, target_of};
ghost use Rattle.sn_model.specs.declared.run.Run.{Run};
ghost use Rattle.sn_graph.specs.Grown.{IsForkWith, IsOfRun, Puts, next_of};

use sn_list::{Memory, Seq};
use sn_model::{Run, Step, Trail};
use sn_net::{Key, Merge, Net};
use sn_node::{Made, Node, Target};
use sn_record::LabelSet;
use sn_stack::append;
use sn_sync::Cell;
use std::alloc::Global;
use std::snapshot::Snapshot;

/// The sum, if it fits.
pub(crate) fn sum(a: usize, b: usize) -> Result<usize, Memory>
    ensures { IfOk result (λ s. s ≡ a + b) }
{
    match a.checked_add(b) {
        Some(s) => Ok(s),
        None => Err(Memory),
    }
}

/// How many nodes a network has from the start.
pub(crate) fn width(depth: u32, net: &Net) -> Result<usize, Memory>
    ensures { IfOk result (λ w. w ≡ (plan depth net.now).width) }
{
    match net {
        Net::Box { .. } => Ok(1),
        Net::Filter(_) => Ok(1),
        Net::Sync { .. } => Ok(1),
        Net::Serial { left, right } => {
            let first = width(depth, left.get())?;
            let second = width(depth, right.get())?;
            sum(first, second)
        }
        Net::Choice { branches, .. } => {
            let mut total = 1;
            for branch in branches.as_slice() {
                let more = width(depth, branch)?;
                total = sum(total, more)?;
            }
            Ok(total)
        }
        Net::Star { .. } => Ok(1),
        Net::Split { .. } => Ok(1),
    }
}

/// Nodes that are put behind `base` others.
#[derive(Drop)]
pub(crate) struct NewNodes {
    pub(crate) base: usize,
    pub(crate) nodes: Vec<Node>,
}

impl NewNodes {
    pub(crate) fn new(alloc: Global, base: usize) -> NewNodes
        ensures base { result.base ≡ base }
        ensures nodes { result.nodes.items ≡ [] }
    {
        NewNodes {
            base,
            nodes: Vec::new(alloc),
        }
    }

    /// The number of the node that is put there next.
    pub(crate) fn next(&self) -> Result<usize, Memory>
        ensures { IfOk result (λ n. n ≡ next_of self.now) }
    {
        sum(self.base, self.nodes.len())
    }

    fn push(&mut self, node: Node) -> Result<(), Memory>
        ensures { (run : Run) → IsOfRun run node → OnOk result (Puts run (node_of node ∷ []) self.old self.new) }
    {
        self.nodes.push(node)?;
        Ok(())
    }
}

/// The steps and one more.
pub(crate) fn with_step(alloc: Global, steps: &Trail, step: Step) -> Result<Trail, Memory>
    ensures { IfOk result (λ longer. longer ≡ steps.now ++ step ∷ []) }
{
    let same = steps.share()?;
    same.further(alloc, step)
}

/// The path and one more part.
pub(crate) fn with_part(alloc: Global, path: &[u32], part: u32) -> Result<Seq<u32>, Memory>
    ensures { IfOk result (λ longer. longer ≡ path.now ++ part ∷ []) }
{
    let mut longer = Seq::from_slice(alloc, path)?;
    append(&mut longer, part)?;
    Ok(longer)
}

/// Where a part of a network stands: the steps to it, and the numbers of the parts on the way there.
pub(crate) struct Spot {
    pub(crate) steps: Trail,
    pub(crate) path: Seq<u32>,
}

/// Written out, so that a function that gives it up calls this, and is not proved over what is in it.
impl Drop for Spot {
    fn drop(self) {
        let Spot {
            steps: _steps,
            path: _path,
        } = self;
    }
}

impl Spot {
    /// One step further, at the part of this number.
    pub(crate) fn below(
        alloc: Global,
        steps: &Trail,
        path: &[u32],
        step: Step,
        part: u32,
    ) -> Result<Spot, Memory>
        ensures steps { IfOk result (λ spot. spot.steps ≡ steps.now ++ step ∷ []) }
        ensures path { IfOk result (λ spot. spot.path ≡ path.now ++ part ∷ []) }
    {
        let steps = with_step(alloc, steps, step)?;
        let path = with_part(alloc, path, part)?;
        Ok(Spot { steps, path })
    }
}

/// What a new node is.
fn made(
    alloc: Global,
    run: &Run,
    left: u32,
    steps: &Trail,
    path: &[u32],
    goes: Target,
) -> Result<Made, Memory>
    ensures run { IfOk result (λ made. made.run.value ≡ run.now) }
    ensures steps { IfOk result (λ made. made.steps ≡ steps.now) }
    ensures path { IfOk result (λ made. made.path ≡ path.now) }
    ensures left { IfOk result (λ made. made.left ≡ left) }
    ensures goes { IfOk result (λ made. made.goes ≡ goes) }
{
    let steps = steps.share()?;
    let path = Seq::from_slice(alloc, path)?;
    Ok(Made {
        run: Snapshot::of(run),
        steps,
        path,
        left,
        goes,
    })
}

/// A box or a filter.
fn push_alone(
    alloc: Global,
    run: &Run,
    grown: &mut NewNodes,
    steps: &Trail,
    path: &[u32],
    goes: Target,
) -> Result<(), Memory>
    ensures { OnOk result (Puts run.now (new_node view.Alone steps.now path.now (target_of goes) ∷ []) grown.old grown.new) }
{
    let made = made(alloc, run, 0, steps, path, goes)?;
    grown.push(Node::alone(alloc, made))
}

/// A synchrocell.
fn push_cell(
    alloc: Global,
    run: &Run,
    grown: &mut NewNodes,
    patterns: &[LabelSet],
    steps: &Trail,
    path: &[u32],
    goes: Target,
) -> Result<(), Memory>
    ensures { OnOk result (Puts run.now (new_node (view.Cell patterns.now (new_cell patterns.now)) steps.now path.now (target_of goes) ∷ []) grown.old grown.new) }
{
    let made = made(alloc, run, 0, steps, path, goes)?;
    let cell = Cell::new(alloc, patterns)?;
    grown.push(Node::cell(alloc, made, cell))
}

/// Adds the branches of a choice to its node. Their nodes begin at `first`.
fn add_branches(
    alloc: Global,
    depth: u32,
    number: usize,
    node: &mut Node,
    first: usize,
    branches: &[Net],
) -> Result<(), Memory>
    requires few { length branches.now ≤ most_branches }
    requires own { (node_of node.old).children ≡ own_child number ∷ [] }
    ensures ok { (merge : Kind) → IsForkWith merge (own_child number ∷ []) (node_of node.old) (node_of node.old) → OnOk result (IsForkWith merge (own_child number ∷ branch_children 0 first (map (plan depth) branches.now)) (node_of node.old) (node_of node.new)) }
    ensures made { node.new.made ≡ node.old.made }
{
    let mut entry = first;
    for (i, branch) in branches.iter().enumerate() {
        node.add_child(alloc, Key::Branch(i as u32), entry)?;
        let more = width(depth, branch)?;
        entry = sum(entry, more)?;
    }
    Ok(())
}

/// A choice, a star or a split with these branches. The replicas of a star or a split are made when they are needed.
pub(crate) fn push_fork(
    alloc: Global,
    run: &Run,
    grown: &mut NewNodes,
    merge: Merge,
    left: u32,
    branches: &[Net],
    steps: &Trail,
    path: &[u32],
    goes: Target,
) -> Result<(), Memory>
    requires { length branches.now ≤ most_branches }
    ensures { OnOk result (Puts run.now (dispatcher merge left (own_child (next_of grown.old) ∷ branch_children 0 (next_of grown.old + 1) (map (plan (depth_of run.now)) branches.now)) steps.now path.now (target_of goes) ∷ []) grown.old grown.new) }
{
    let made = made(alloc, run, left, steps, path, goes)?;
    let number = grown.next()?;
    let mut node = Node::fork(alloc, made, merge, number)?;
    let first = sum(number, 1)?;
    add_branches(alloc, run.depth(), number, &mut node, first, branches)?;
    grown.push(node)
}

/// Two networks in series: what the left one gives goes to the first node of the right one.
#[cycle(growing)]
fn grow_series(
    alloc: Global,
    run: &Run,
    grown: &mut NewNodes,
    left: &Net,
    right: &Net,
    steps: &Trail,
    path: &[u32],
    goes: Target,
) -> Result<(), Memory>
    requires left { FitsBoxes (boxes_of run.now) left.now }
    requires right { FitsBoxes (boxes_of run.now) right.now }
    ensures { OnOk result (Puts run.now ((serial_plan (plan (depth_of run.now) left.now) (plan (depth_of run.now) right.now)).nodes steps.now path.now (target_of goes) (next_of grown.old)) grown.old grown.new) }
{
    let at = sum(grown.next()?, width(run.depth(), left)?)?;
    let first = Spot::below(alloc, steps, path, Step::Left, 0)?;
    let to_right = Target::Node(at);
    grow(
        alloc,
        run,
        grown,
        left,
        &first.steps,
        first.path.as_slice(),
        to_right,
    )?;
    let second = Spot::below(alloc, steps, path, Step::Right, 1)?;
    grow(
        alloc,
        run,
        grown,
        right,
        &second.steps,
        second.path.as_slice(),
        goes,
    )
}

/// A choice: its dispatcher, and then its branches, each of which gives to a child of that.
#[cycle(growing)]
fn grow_choice(
    alloc: Global,
    run: &Run,
    grown: &mut NewNodes,
    merge: Merge,
    branches: &[Net],
    steps: &Trail,
    path: &[u32],
    goes: Target,
) -> Result<(), Memory>
    requires few { length branches.now ≤ most_branches }
    requires fit { All (FitsBoxes (boxes_of run.now)) branches.now }
    ensures { OnOk result (Puts run.now ((choice_plan merge (map (plan (depth_of run.now)) branches.now)).nodes steps.now path.now (target_of goes) (next_of grown.old)) grown.old grown.new) }
{
    let node = grown.next()?;
    push_fork(alloc, run, grown, merge, 0, branches, steps, path, goes)?;
    for (i, branch) in branches.iter().enumerate() {
        let spot = Spot::below(alloc, steps, path, Step::Branch(i as u32), i as u32)?;
        let child = Target::Child { node, child: i + 1 };
        grow(
            alloc,
            run,
            grown,
            branch,
            &spot.steps,
            spot.path.as_slice(),
            child,
        )?;
    }
    Ok(())
}

/// Puts the nodes of a part of a run's network behind the others. What it gives goes there.
#[cycle(growing)]
pub(crate) fn grow(
    alloc: Global,
    run: &Run,
    grown: &mut NewNodes,
    net: &Net,
    steps: &Trail,
    path: &[u32],
    goes: Target,
) -> Result<(), Memory>
    requires { FitsBoxes (boxes_of run.now) net.now }
    ensures { OnOk result (Puts run.now ((plan (depth_of run.now) net.now).nodes steps.now path.now (target_of goes) (next_of grown.old)) grown.old grown.new) }
{
    match net {
        Net::Box { .. } | Net::Filter(_) => push_alone(alloc, run, grown, steps, path, goes),
        Net::Sync { patterns, .. } => {
            push_cell(alloc, run, grown, patterns.as_slice(), steps, path, goes)
        }
        Net::Serial { left, right } => {
            grow_series(
                alloc,
                run,
                grown,
                left.get(),
                right.get(),
                steps,
                path,
                goes,
            )
        }
        Net::Choice {
            merge,
            branches,
            ..
        } => {
            let branches = branches.as_slice();
            grow_choice(alloc, run, grown, *merge, branches, steps, path, goes)
        }
        Net::Star { merge, .. } => {
            push_fork(
                alloc,
                run,
                grown,
                *merge,
                run.depth(),
                &[],
                steps,
                path,
                goes,
            )
        }
        Net::Split { merge, .. } => {
            push_fork(alloc, run, grown, *merge, 0, &[], steps, path, goes)
        }
    }
}
