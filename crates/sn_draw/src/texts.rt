//! The canonical texts of the parts of a source.
use sn_ast::{BoxDecl, Decl, NetDecl, NetExpr, NetForm, Program};
use sn_list::{Memory, Seq};
use sn_print::{box_text, exit_text, network_text};
use sn_record::Text;
use sn_stack::append;
use std::alloc::Global;
use std::collections::BTreeMap;

/// The canonical texts of a source's boxes, in the order of their declarations, and of its filters, synchrocells, what stands behind the
/// bodies of its stars and the marks of its spread splits, by their places. Also the logical node of each box, filter and cell that stands in a placed
/// part of a network, where no inner part is placed elsewhere or spread.
#[derive(Drop)]
pub struct Texts {
    boxes: Seq<Text>,
    places: BTreeMap<u32, Text>,
    nodes: BTreeMap<u32, u64>,
}

impl Texts {
    /// The texts of a source.
    pub fn of(alloc: Global, program: &Program) -> Result<Texts, Memory> {
        let mut texts = Texts {
            boxes: Seq::new(alloc),
            places: BTreeMap::new(alloc),
            nodes: BTreeMap::new(alloc),
        };
        texts.add_all(alloc, program.decls.as_slice())?;
        Ok(texts)
    }

    /// The text of the box with the number, and nothing where there is no such box.
    pub fn of_box(&self, number: u32) -> &[u8] {
        match self.boxes.as_slice().get(number as usize) {
            Some(text) => text.as_slice(),
            None => &[],
        }
    }

    /// The text of the part at the place, and nothing where there is none.
    pub fn at(&self, place: u32) -> &[u8] {
        match self.places.get(&place) {
            Some(text) => text.as_slice(),
            None => &[],
        }
    }

    /// The logical node on which the part at the place is put, if it is.
    pub fn node_at(&self, place: u32) -> Option<u64> {
        match self.nodes.get(&place) {
            Some(node) => Some(*node),
            None => None,
        }
    }

    /// The part at the place is on the node, if it is put on one.
    fn put_node(&mut self, place: u32, node: Option<u64>) -> Result<(), Memory> {
        let Some(node) = node else {
            return Ok(());
        };
        match self.nodes.insert(place, node) {
            Ok(_) => Ok(()),
            Err(_) => Err(Memory),
        }
    }

    fn put(&mut self, place: u32, text: Text) -> Result<(), Memory> {
        match self.places.insert(place, text) {
            Ok(_) => Ok(()),
            Err(_) => Err(Memory),
        }
    }

    #[cycle(declared)]
    fn add_all(&mut self, alloc: Global, decls: &[Decl]) -> Result<(), Memory> {
        for decl in decls {
            self.add(alloc, decl)?;
        }
        Ok(())
    }

    #[cycle(declared)]
    fn add(&mut self, alloc: Global, decl: &Decl) -> Result<(), Memory> {
        match decl {
            Decl::BoxDecl(declared) => self.add_box(alloc, declared),
            Decl::NetDecl(declared) => self.add_net(alloc, declared),
            Decl::TypeDecl { .. } => Ok(()),
            Decl::SigDecl { .. } => Ok(()),
        }
    }

    fn add_box(&mut self, alloc: Global, declared: &BoxDecl) -> Result<(), Memory> {
        let text = box_text(alloc, declared)?;
        append(&mut self.boxes, text)
    }

    #[cycle(declared)]
    fn add_net(&mut self, alloc: Global, declared: &NetDecl) -> Result<(), Memory> {
        self.add_all(alloc, declared.decls.as_slice())?;
        self.add_network(alloc, &declared.connect, None)
    }

    #[cycle(networks)]
    fn add_networks(
        &mut self,
        alloc: Global,
        networks: &[NetExpr],
        node: Option<u64>,
    ) -> Result<(), Memory> {
        for network in networks {
            self.add_network(alloc, network, node)?;
        }
        Ok(())
    }

    /// Adds what a network has that is put on a node, as deep in calls as it is high.
    #[cycle(networks)]
    fn add_network(
        &mut self,
        alloc: Global,
        network: &NetExpr,
        node: Option<u64>,
    ) -> Result<(), Memory> {
        match &network.form {
            NetForm::Name(_) => self.put_node(network.at, node),
            NetForm::Identity => self.add_leaf(alloc, network, node),
            NetForm::Filter { .. } => self.add_leaf(alloc, network, node),
            NetForm::Sync { .. } => self.add_leaf(alloc, network, node),
            NetForm::Serial { parts } => self.add_networks(alloc, parts.as_slice(), node),
            NetForm::Choice { branches, .. } => {
                self.add_networks(alloc, branches.as_slice(), node)
            }
            NetForm::Star {
                det,
                body,
                exit,
                guard,
            } => {
                self.put(network.at, exit_text(alloc, *det, exit, guard)?)?;
                self.add_network(alloc, body.get(), node)
            }
            NetForm::Split { spread, body, .. } => {
                if *spread {
                    self.put(network.at, Seq::from_slice(alloc, b"@")?)?;
                    return self.add_network(alloc, body.get(), None);
                }
                self.add_network(alloc, body.get(), node)
            }
            NetForm::Placed { body, node } => self.add_network(alloc, body.get(), Some(*node)),
        }
    }

    /// Adds a part that has no others.
    fn add_leaf(
        &mut self,
        alloc: Global,
        network: &NetExpr,
        node: Option<u64>,
    ) -> Result<(), Memory> {
        self.put(network.at, network_text(alloc, network)?)?;
        self.put_node(network.at, node)
    }
}
