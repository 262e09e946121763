use crate::box_expr::BExpr;
use crate::label::{Ident, Sig, Tuple, TypePart};
use crate::network::NetExpr;
use sn_list::Seq;

/// A source.
#[derive(Drop)]
pub struct Program {
    pub decls: Seq<Decl>,
}

#[cycle(declaration)]
#[derive(Drop)]
pub enum Decl {
    BoxDecl(BoxDecl),
    NetDecl(NetDecl),
    TypeDecl { name: Ident, parts: Seq<TypePart> },
    SigDecl { name: Ident, sig: Sig },
}

#[derive(Drop)]
pub struct BoxDecl {
    pub name: Ident,
    pub input: Tuple,
    pub outputs: Seq<Tuple>,
    pub funs: Seq<FunDecl>,
    pub body: BExpr,
}

#[derive(Drop)]
pub struct FunDecl {
    pub name: Ident,
    pub params: Seq<Ident>,
    pub body: BExpr,
}

#[cycle(declaration)]
#[derive(Drop)]
pub struct NetDecl {
    pub name: Ident,
    pub sig: Option<Sig>,
    pub decls: Seq<Decl>,
    pub connect: NetExpr,
}
