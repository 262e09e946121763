//! From a network to the statements of its picture.
ghost use Rattle.std.specs.Prelude.{◌≡◌, ◌+◌, ◌++◌, ◌∷◌, [], IfOk, OnOk, map, sum};
ghost use Rattle.sn_draw.specs.Picture.{count_nodes, drawn};

use crate::label::wrapped;
use crate::statement::{Flow, Shape, Statement};
use crate::texts::Texts;
use crate::variants::{leaving_text, part_of, reaching_text};
use itoa::Buffer;
use sn_flow::Table;
use sn_list::{Memory, Seq};
use sn_names::Names;
use sn_net::{Merge, Net};
use sn_output::push_label;
use sn_place::Places;
use sn_record::{Kind, Text};
use sn_stack::append;
use std::alloc::Global;

/// The nodes where a part's records come in, and where they go out.
#[derive(Clone, Copy)]
struct Ends {
    entry: u64,
    exit: u64,
}

/// A picture that is being drawn.
#[derive(Drop)]
struct Drawing<'a> {
    alloc: Global,
    names: &'a Names,
    texts: &'a Texts,
    places: &'a Places<'a>,
    statements: Seq<Statement>,
    /// The numbers of the next node and of the next cluster.
    node: u64,
    cluster: u64,
}

/// A text, and behind it a place of the source by its line and column.
fn placed(places: &Places<'_>, text: Text, between: &[u8], place: u32) -> Result<Text, Memory> {
    let mut label = text;
    let Some(position) = places.at(place as usize) else {
        return Ok(label);
    };
    let mut line = Buffer::new();
    let mut column = Buffer::new();
    label.extend_from_slice(between)?;
    label.extend_from_slice(line.format(position.line).as_bytes())?;
    label.extend_from_slice(b":")?;
    label.extend_from_slice(column.format(position.column).as_bytes())?;
    Ok(label)
}

/// A label, and behind it the node on which the part is put, if it is.
fn on_node(label: Text, node: Option<u64>) -> Result<Text, Memory> {
    let mut label = label;
    let Some(node) = node else {
        return Ok(label);
    };
    let mut digits = Buffer::new();
    label.extend_from_slice(b" on node ")?;
    label.extend_from_slice(digits.format(node).as_bytes())?;
    Ok(label)
}

/// How a merge is drawn, and told.
fn merge_shape(merge: Merge) -> (Shape, &'static [u8]) {
    match merge {
        Merge::Det => (Shape::MergeInOrder, b"merge in order"),
        Merge::Free => (Shape::MergeFreely, b"merge free"),
    }
}

/// The one of two operators that the merge is written with.
fn operator(merge: Merge, doubled: &'static [u8], single: &'static [u8]) -> &'static [u8] {
    match merge {
        Merge::Det => doubled,
        Merge::Free => single,
    }
}

impl Drawing<'_> {
    fn push_node(&mut self, shape: Shape, label: Text) -> Result<u64, Memory>
        ensures { OnOk result (count_nodes self.new.statements ≡ count_nodes self.old.statements + 1) }
    {
        let number = self.node;
        append(
            &mut self.statements,
            Statement::Node {
                number,
                shape,
                label,
            },
        )?;
        self.node = number.saturating_add(1);
        Ok(number)
    }

    /// A node with a fixed text.
    fn push_plain(&mut self, shape: Shape, text: &[u8]) -> Result<u64, Memory>
        ensures { OnOk result (count_nodes self.new.statements ≡ count_nodes self.old.statements + 1) }
    {
        let label = Seq::from_slice(self.alloc, text)?;
        self.push_node(shape, label)
    }

    fn push_edge(&mut self, from: u64, to: u64, flow: Flow, label: Text) -> Result<(), Memory>
        ensures { OnOk result (count_nodes self.new.statements ≡ count_nodes self.old.statements) }
    {
        let flow = if label.is_empty() {
            Flow::Nothing
        } else {
            flow
        };
        append(
            &mut self.statements,
            Statement::Edge {
                from,
                to,
                flow,
                label,
            },
        )
    }

    /// An edge with what reaches a part.
    fn push_reaching(&mut self, from: u64, to: u64, table: Option<&Table>) -> Result<(), Memory>
        ensures { OnOk result (count_nodes self.new.statements ≡ count_nodes self.old.statements) }
    {
        let label = reaching_text(self.alloc, self.names, table)?;
        self.push_edge(from, to, Flow::Some, label)
    }

    /// An edge with what leaves a part.
    fn push_leaving(
        &mut self,
        from: u64,
        to: u64,
        flow: Flow,
        table: Option<&Table>,
    ) -> Result<(), Memory>
        ensures { OnOk result (count_nodes self.new.statements ≡ count_nodes self.old.statements) }
    {
        let label = leaving_text(self.alloc, self.names, table)?;
        self.push_edge(from, to, flow, label)
    }

    fn open(&mut self, label: Text) -> Result<(), Memory>
        ensures { OnOk result (count_nodes self.new.statements ≡ count_nodes self.old.statements) }
    {
        let number = self.cluster;
        append(&mut self.statements, Statement::Open { number, label })?;
        self.cluster = number.saturating_add(1);
        Ok(())
    }

    fn close(&mut self) -> Result<(), Memory>
        ensures { OnOk result (count_nodes self.new.statements ≡ count_nodes self.old.statements) }
    {
        append(&mut self.statements, Statement::Close)
    }

    /// Opens a cluster, with the nodes where records part and where they merge.
    fn open_fork(&mut self, label: Text, fork: &[u8], merge: Merge) -> Result<Ends, Memory>
        ensures { OnOk result (count_nodes self.new.statements ≡ count_nodes self.old.statements + 2) }
    {
        self.open(label)?;
        let entry = self.push_plain(Shape::Fork, fork)?;
        let (shape, text) = merge_shape(merge);
        let exit = self.push_plain(shape, text)?;
        Ok(Ends { entry, exit })
    }

    /// A box, a filter or a cell, by its text, with its place and its node.
    fn component(&mut self, shape: Shape, text: &[u8], place: u32) -> Result<Ends, Memory>
        ensures { OnOk result (count_nodes self.new.statements ≡ count_nodes self.old.statements + 1) }
    {
        let label = placed(self.places, wrapped(self.alloc, text)?, b"\nat ", place)?;
        let label = on_node(label, self.texts.node_at(place))?;
        let number = self.push_node(shape, label)?;
        Ok(Ends {
            entry: number,
            exit: number,
        })
    }

    /// Draws a network, of whose parts the tables say what reaches them.
    #[cycle(draws)]
    fn draw(&mut self, net: &Net, table: Option<&Table>) -> Result<Ends, Memory>
        ensures { OnOk result (count_nodes self.new.statements ≡ count_nodes self.old.statements + drawn net.now) }
    {
        match net {
            Net::Box { place, number } => {
                let texts = self.texts;
                self.component(Shape::Box, texts.of_box(*number), *place)
            }
            Net::Filter(filter) => {
                let texts = self.texts;
                self.component(Shape::Filter, texts.at(filter.place), filter.place)
            }
            Net::Sync { place, .. } => {
                let texts = self.texts;
                self.component(Shape::Cell, texts.at(*place), *place)
            }
            Net::Serial { left, right } => self.series(left.get(), right.get(), table),
            Net::Choice {
                place,
                merge,
                branches,
                ..
            } => self.choice(*place, *merge, branches.as_slice(), table),
            Net::Star {
                place,
                merge,
                body,
                ..
            } => self.star(*place, *merge, body.get(), table),
            Net::Split {
                place,
                merge,
                body,
                tag,
            } => self.split(*place, *merge, body.get(), *tag, table),
        }
    }

    #[cycle(draws)]
    fn series(&mut self, left: &Net, right: &Net, table: Option<&Table>) -> Result<Ends, Memory>
        ensures { OnOk result (count_nodes self.new.statements ≡ count_nodes self.old.statements + (drawn left.now + drawn right.now)) }
    {
        let first = self.draw(left, part_of(table, 0))?;
        let second = self.draw(right, part_of(table, 1))?;
        self.push_reaching(first.exit, second.entry, part_of(table, 1))?;
        Ok(Ends {
            entry: first.entry,
            exit: second.exit,
        })
    }

    #[cycle(draws)]
    fn choice(
        &mut self,
        place: u32,
        merge: Merge,
        branches: &[Net],
        table: Option<&Table>,
    ) -> Result<Ends, Memory>
        ensures { OnOk result (count_nodes self.new.statements ≡ count_nodes self.old.statements + (2 + sum (map drawn branches.now))) }
    {
        let text = Seq::from_slice(self.alloc, operator(merge, b"choice ||", b"choice |"))?;
        let label = placed(self.places, text, b" at ", place)?;
        let ends = self.open_fork(label, b"best match", merge)?;
        for (i, branch) in branches.iter().enumerate() {
            let part = part_of(table, i);
            let inner = self.draw(branch, part)?;
            self.push_reaching(ends.entry, inner.entry, part)?;
            self.push_leaving(inner.exit, ends.exit, Flow::Some, part)?;
        }
        self.close()?;
        Ok(ends)
    }

    /// The replicas of a star are drawn once: what a replica answers goes back to where it may leave.
    #[cycle(draws)]
    fn star(
        &mut self,
        place: u32,
        merge: Merge,
        body: &Net,
        table: Option<&Table>,
    ) -> Result<Ends, Memory>
        ensures { OnOk result (count_nodes self.new.statements ≡ count_nodes self.old.statements + (2 + drawn body.now)) }
    {
        let mut text = Seq::from_slice(self.alloc, b"star")?;
        let texts = self.texts;
        text.extend_from_slice(texts.at(place))?;
        let label = placed(self.places, text, b" at ", place)?;
        let ends = self.open_fork(label, b"exit?", merge)?;
        let part = part_of(table, 0);
        let inner = self.draw(body, part)?;
        self.push_reaching(ends.entry, inner.entry, part)?;
        self.push_leaving(inner.exit, ends.entry, Flow::Back, part)?;
        self.push_leaving(ends.entry, ends.exit, Flow::Some, table)?;
        self.close()?;
        Ok(ends)
    }

    #[cycle(draws)]
    fn split(
        &mut self,
        place: u32,
        merge: Merge,
        body: &Net,
        tag: u32,
        table: Option<&Table>,
    ) -> Result<Ends, Memory>
        ensures { OnOk result (count_nodes self.new.statements ≡ count_nodes self.old.statements + (2 + drawn body.now)) }
    {
        let mut text = Seq::from_slice(self.alloc, operator(merge, b"split !!", b"split !"))?;
        text.extend_from_slice(self.texts.at(place))?;
        text.extend_from_slice(b" ")?;
        push_label(&mut text, Kind::Tag, self.names.name_or_none(tag))?;
        let label = placed(self.places, text, b" at ", place)?;
        let mut fork = Seq::from_slice(self.alloc, b"by ")?;
        push_label(&mut fork, Kind::Tag, self.names.name_or_none(tag))?;
        let ends = self.open_fork(label, fork.as_slice(), merge)?;
        let part = part_of(table, 0);
        let inner = self.draw(body, part)?;
        self.push_reaching(ends.entry, inner.entry, part)?;
        self.push_leaving(inner.exit, ends.exit, Flow::Some, part)?;
        self.close()?;
        Ok(ends)
    }

    /// Draws a network between where records come in and where they go out.
    fn whole(&mut self, net: &Net, table: Option<&Table>) -> Result<(), Memory>
        ensures { OnOk result (count_nodes self.new.statements ≡ count_nodes self.old.statements + (2 + drawn net.now)) }
    {
        let entry = self.push_plain(Shape::End, b"in")?;
        let exit = self.push_plain(Shape::End, b"out")?;
        let inner = self.draw(net, table)?;
        self.push_reaching(entry, inner.entry, table)?;
        self.push_leaving(inner.exit, exit, Flow::Some, table)
    }
}

/// The statements of a network's picture: of each box, filter and cell a node, of each choice, star and split two in a cluster, and one each
/// where records come in and go out. Each part tells its place by line and column. Where a table of the network is given, edges tell the variants that
/// flow there.
pub fn draw_net(
    alloc: Global,
    net: &Net,
    names: &Names,
    texts: &Texts,
    places: &Places<'_>,
    table: Option<&Table>,
) -> Result<Seq<Statement>, Memory>
    ensures { IfOk result (λ statements. count_nodes statements ≡ 2 + drawn net.now) }
{
    let mut drawing = Drawing {
        alloc,
        names,
        texts,
        places,
        statements: Seq::new(alloc),
        node: 0,
        cluster: 0,
    };
    drawing.whole(net, table)?;
    let Drawing { statements, .. } = drawing;
    Ok(statements)
}
