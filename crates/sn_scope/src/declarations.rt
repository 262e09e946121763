//! What a source declares: its types, signatures, nets and boxes, and the claims about the nets that have a signature.
ghost use Rattle.std.specs.Prelude.{◌≡◌, ◌++◌, IfOk, OnOk, map as each};
ghost use Rattle.sn_scope.specs.Declarations.{after, after_box, after_net, after_type, all_after, ended, main_after, net_at, net_number, net_signature, number_at, start, with_claim, with_meaning, with_net, with_net_signature, with_signature};

use crate::network::{Component, Network, network_at};
use crate::scopes::{Meaning, Scopes};
use crate::types::type_at;
use sn_ast::{BoxDecl, Decl, Ident, NetDecl, NetExpr, Sig, TypePart};
use sn_box_scope::box_at;
use sn_label_scope::{Reason, Refusals};
use sn_list::{Boxed, Held, Memory, Seq};
use sn_names::NameTable;
use sn_net::Boxes;
use sn_record::LabelSet;
use std::alloc::Global;
use std::mem::replace;

/// An input and an output type, each as its different variants.
#[derive(Drop)]
pub struct Signature {
    pub input: Seq<LabelSet>,
    pub output: Seq<LabelSet>,
}

/// A net with a signature, by their numbers. Its place is that of its name in its declaration.
#[derive(Clone, Copy)]
pub struct Pending {
    pub place: u32,
    pub net: usize,
    pub signature: usize,
}

/// What was declared so far. Types, signatures, nets and boxes are each numbered from 0 in the order in which their
/// declarations end.
pub struct Declarations {
    pub types: Seq<Seq<LabelSet>>,
    pub signatures: Seq<Signature>,
    pub nets: Seq<Component>,
    pub boxes: Boxes,
    pub scopes: Scopes,
    /// In the order of the places of their names.
    pub claims: Seq<Pending>,
    /// The place in `claims` of that of the outermost net `main`.
    pub main: Option<usize>,
    pub refusals: Refusals,
}

/// Written out, so that a function that gives them up calls this, and is not proved over each list in them.
impl Drop for Declarations {
    fn drop(self) {
        let Declarations {
            types: _types,
            signatures: _signatures,
            nets: _nets,
            boxes: _boxes,
            scopes: _scopes,
            claims: _claims,
            main: _,
            refusals: _refusals,
        } = self;
    }
}

impl Declarations {
    pub fn new(alloc: Global) -> Declarations
        ensures { result ≡ start }
    {
        Declarations {
            types: Seq::new(alloc),
            signatures: Seq::new(alloc),
            nets: Seq::new(alloc),
            boxes: Seq::new(alloc),
            scopes: Scopes::new(alloc),
            claims: Seq::new(alloc),
            main: None,
            refusals: Refusals::new(),
        }
    }

    /// Gives the name its meaning in the innermost scope. A name that has one there already is refused.
    fn declare(&mut self, name: &Ident, meaning: Meaning) -> Result<(), Memory>
        ensures { OnOk result (self.new ≡ with_meaning name.now meaning self.old) }
    {
        let fresh = self.scopes.declare(name.text.as_slice(), meaning)?;
        self.refusals.require(fresh, Reason::Twice, name.at);
        Ok(())
    }

    /// The number of the signature. A name that is no signature's is refused.
    fn signature(&mut self, alloc: Global, names: &NameTable, sig: &Sig) -> Result<usize, Memory>
        ensures declared { OnOk result (self.new ≡ with_signature names.now sig.now self.old) }
        ensures number { IfOk result (λ number. number ≡ number_at sig.now self.old) }
    {
        let count = self.signatures.len();
        match sig {
            Sig::Arrow { input, output } => {
                let types = self.types.as_slice();
                let input = type_at(
                    alloc,
                    names,
                    &self.scopes,
                    types,
                    &mut self.refusals,
                    input.as_slice(),
                )?;
                let output = type_at(
                    alloc,
                    names,
                    &self.scopes,
                    types,
                    &mut self.refusals,
                    output.as_slice(),
                )?;
                sn_stack::append(&mut self.signatures, Signature { input, output })?;
                Ok(count)
            }
            Sig::Named(name) => {
                let number = self.scopes.signature_of(name.text.as_slice());
                self.refusals
                    .require(number.is_some(), Reason::Unknown, name.at);
                Ok(number.unwrap_or(count))
            }
        }
    }

    /// The number of the net: that of the one that its network names, or else its own.
    fn net(&mut self, network: Boxed<Network>) -> Result<usize, Memory>
        ensures declared { OnOk result (self.new ≡ record self.old { nets = with_net network self.old.nets }) }
        ensures number { IfOk result (λ number. number ≡ net_at network self.old.nets) }
    {
        match network.into_inner() {
            Network::Named(number) => Ok(number),
            Network::Made(component) => {
                let number = self.nets.len();
                sn_stack::append(&mut self.nets, component)?;
                Ok(number)
            }
        }
    }

    /// The number of a net's signature, where it has one.
    fn net_signature(
        &mut self,
        alloc: Global,
        names: &NameTable,
        sig: &Option<Sig>,
    ) -> Result<Option<usize>, Memory>
        ensures declared { OnOk result (self.new ≡ with_net_signature names.now sig.now self.old) }
        ensures number { IfOk result (λ number. number ≡ net_signature sig.now self.old) }
    {
        match sig {
            Some(sig) => Ok(Some(self.signature(alloc, names, sig)?)),
            None => Ok(None),
        }
    }

    /// Reads a net's network, with which its scope ends, and answers the net's number.
    fn end(&mut self, alloc: Global, names: &NameTable, connect: &NetExpr) -> Result<usize, Memory>
        ensures declared { OnOk result (self.new ≡ ended names.now connect.now self.old) }
        ensures number { IfOk result (λ number. number ≡ net_number names.now connect.now self.old) }
    {
        let network = network_at(alloc, names, &self.scopes, &mut self.refusals, connect)?;
        self.scopes.leave(alloc);
        self.net(network)
    }

    /// Puts claims before those that are there.
    fn lead(&mut self, claims: Seq<Pending>) -> Result<(), Memory>
        ensures { OnOk result (self.new ≡ record self.old { claims = claims ++ self.old.claims }) }
    {
        let mut claims = claims;
        claims.extend_from_slice(self.claims.as_slice())?;
        self.claims = claims;
        Ok(())
    }

    /// Notes the claim with the number as that of the program, if its name is that of the outermost `main`.
    fn note_main(&mut self, name: &Ident, claim: usize)
        ensures { self.new ≡ record self.old { main = main_after name.now claim self.old } }
    {
        if self.scopes.is_outermost() && name.text.as_slice() == b"main".as_slice() {
            self.main = Some(claim);
        }
    }

    /// Puts the claim of a net with a signature before those of its inner declarations, and `before` before all of them.
    fn claim(
        &mut self,
        name: &Ident,
        signature: Option<usize>,
        net: usize,
        before: Seq<Pending>,
    ) -> Result<(), Memory>
        ensures { OnOk result (self.new ≡ with_claim name.now signature net before self.old) }
    {
        let Some(signature) = signature else {
            return self.lead(before);
        };
        let mut claims = before;
        self.note_main(name, claims.len());
        sn_stack::append(
            &mut claims,
            Pending {
                place: name.at,
                net,
                signature,
            },
        )?;
        self.lead(claims)
    }

    /// As deep in calls as declarations stand within one another.
    #[cycle(after)]
    fn declaration(&mut self, alloc: Global, names: &NameTable, decl: &Decl) -> Result<(), Memory>
        ensures { OnOk result (self.new ≡ after names.now decl.now self.old) }
    {
        match decl {
            Decl::BoxDecl(declaration) => self.box_declaration(alloc, names, declaration),
            Decl::NetDecl(net) => self.net_declaration(alloc, names, net),
            Decl::TypeDecl { name, parts } => self.type_declaration(
                alloc,
                names,
                name,
                parts.as_slice(),
            ),
            Decl::SigDecl { name, sig } => {
                let number = self.signature(alloc, names, sig)?;
                self.declare(name, Meaning::Signature(number))
            }
        }
    }

    fn type_declaration(
        &mut self,
        alloc: Global,
        names: &NameTable,
        name: &Ident,
        parts: &[TypePart],
    ) -> Result<(), Memory>
        ensures { OnOk result (self.new ≡ after_type names.now name.now parts.now self.old) }
    {
        let number = self.types.len();
        let variants = type_at(
            alloc,
            names,
            &self.scopes,
            self.types.as_slice(),
            &mut self.refusals,
            parts,
        )?;
        sn_stack::append(&mut self.types, variants)?;
        self.declare(name, Meaning::Type(number))
    }

    /// Nothing in a box's declaration sees its name.
    fn box_declaration(
        &mut self,
        alloc: Global,
        names: &NameTable,
        declaration: &BoxDecl,
    ) -> Result<(), Memory>
        ensures { OnOk result (self.new ≡ after_box names.now declaration.now self.old) }
    {
        // So many boxes do not fit into memory.
        let Ok(number) = u32::try_from(self.boxes.len()) else {
            return Err(Memory);
        };
        let program = box_at(alloc, names, &mut self.refusals, declaration)?;
        sn_stack::append(&mut self.boxes, program)?;
        self.declare(&declaration.name, Meaning::Box(number))
    }

    /// A net's inner declarations stand in a scope of their own, and its network sees them.
    #[cycle(after)]
    fn net_declaration(
        &mut self,
        alloc: Global,
        names: &NameTable,
        net: &NetDecl,
    ) -> Result<(), Memory>
        ensures { OnOk result (self.new ≡ after_net names.now net.now self.old) }
    {
        let signature = self.net_signature(alloc, names, &net.sig)?;
        let value = replace(&mut self.claims, Seq::new(alloc));
        let before = Held { value };
        self.scopes.enter(alloc)?;
        self.declarations(alloc, names, net.decls.as_slice())?;
        let number = self.end(alloc, names, &net.connect)?;
        self.claim(&net.name, signature, number, before.into_inner())?;
        self.declare(&net.name, Meaning::Net(number))
    }

    /// Each declaration sees those before it.
    #[cycle(after)]
    pub fn declarations(
        &mut self,
        alloc: Global,
        names: &NameTable,
        decls: &[Decl],
    ) -> Result<(), Memory>
        ensures { OnOk result (self.new ≡ all_after (each (after names.now) decls.now) self.old) }
    {
        for decl in decls {
            self.declaration(alloc, names, decl)?;
        }
        Ok(())
    }
}
