ghost use Rattle.std.specs.Prelude.{◌≡◌, IfOk};
ghost use Rattle.sn_ast.specs.Kept.{kept};
ghost use Rattle.sn_ast.specs.Networks.{sync_at, with_guarded_star, with_place, with_split, with_star};
ghost use Rattle.sn_ast.specs.Rows.{append};
ghost use Rattle.sn_net_parser.specs.Levels.{choice_node, identity_node, name_node, serial_node};

use sn_ast::measure::{boxed, join, leaf, raise};
use sn_ast::{Boxed, Ident, Kept, NetExpr, NetForm, Seq, TExpr, Variant};
use sn_list::Memory;
use std::alloc::Global;

pub fn name(name: Ident) -> Kept<NetExpr>
    ensures { result ≡ name_node name }
{
    let at = name.at;
    leaf(NetExpr {
        at,
        form: NetForm::Name(name),
    })
}

pub fn identity(at: u32) -> Kept<NetExpr>
    ensures { result ≡ identity_node at }
{
    leaf(NetExpr {
        at,
        form: NetForm::Identity,
    })
}

pub fn serial(at: u32, row: Kept<Seq<NetExpr>>) -> Kept<NetExpr>
    ensures { result ≡ serial_node at row }
{
    let (row, measure) = row?.into_parts();
    raise(Some(measure.with(NetExpr {
        at,
        form: NetForm::Serial { parts: row },
    })))
}

pub fn choice(det: bool, at: u32, row: Kept<Seq<NetExpr>>) -> Kept<NetExpr>
    ensures { result ≡ choice_node det at row }
{
    let (row, measure) = row?.into_parts();
    raise(Some(measure.with(NetExpr {
        at,
        form: NetForm::Choice { det, branches: row },
    })))
}

/// A star or a split whose operator was read, and the network before it, on the heap as a node holds it.
pub struct Repeated {
    pub det: bool,
    pub at: u32,
    pub body: Kept<Boxed<NetExpr>>,
}

/// Written out, so that whoever gives it up calls this, and is not proved over each part of it.
impl Drop for Repeated {
    fn drop(self) {
        let Repeated {
            det: _det,
            at: _at,
            body: _body,
        } = self;
    }
}

impl Repeated {
    pub fn new(alloc: Global, det: bool, at: u32, body: Kept<NetExpr>) -> Result<Repeated, Memory>
        ensures { IfOk result (λ r. r ≡ record { det = det; at = at; body = body }) }
    {
        let body = boxed(alloc, body)?;
        Ok(Repeated { det, at, body })
    }

    pub fn star(self, exit: Variant) -> Kept<NetExpr>
        ensures { result ≡ with_star kept self.det self.at self.body exit }
    {
        let Repeated { det, at, body } = self;
        let (body, measure) = body?.into_parts();
        let form = NetForm::Star {
            det,
            body,
            exit,
            guard: None,
        };
        raise(Some(measure.with(NetExpr { at, form })))
    }

    pub fn guarded_star(self, exit: Variant, guard: Kept<TExpr>) -> Kept<NetExpr>
        ensures { result ≡ with_guarded_star kept self.det self.at self.body exit guard }
    {
        let Repeated { det, at, body } = self;
        let ((body, guard), measure) = join(body, guard)?.into_parts();
        let form = NetForm::Star {
            det,
            body,
            exit,
            guard: Some(guard),
        };
        raise(Some(measure.with(NetExpr { at, form })))
    }

    pub fn split(self, spread: bool, tag: Ident) -> Kept<NetExpr>
        ensures { result ≡ with_split kept self.det spread self.at self.body tag }
    {
        let Repeated { det, at, body } = self;
        let (body, measure) = body?.into_parts();
        let form = NetForm::Split {
            det,
            spread,
            body,
            tag,
        };
        raise(Some(measure.with(NetExpr { at, form })))
    }
}

/// A placed part whose `@` was read, and the network before it, on the heap as a node holds it.
pub struct Placing {
    pub at: u32,
    pub body: Kept<Boxed<NetExpr>>,
}

/// Written out, so that whoever gives it up calls this, and is not proved over each part of it.
impl Drop for Placing {
    fn drop(self) {
        let Placing {
            at: _at,
            body: _body,
        } = self;
    }
}

impl Placing {
    pub fn new(alloc: Global, at: u32, body: Kept<NetExpr>) -> Result<Placing, Memory>
        ensures { IfOk result (λ r. r ≡ record { at = at; body = body }) }
    {
        let body = boxed(alloc, body)?;
        Ok(Placing { at, body })
    }

    pub fn on(self, node: u64) -> Kept<NetExpr>
        ensures { result ≡ with_place kept self.at self.body node }
    {
        let Placing { at, body } = self;
        let (body, measure) = body?.into_parts();
        let form = NetForm::Placed { body, node };
        raise(Some(measure.with(NetExpr { at, form })))
    }
}

/// The patterns of a synchrocell so far, and the place of its opening bracket.
pub struct Cell {
    pub at: u32,
    pub patterns: Seq<Variant>,
}

/// Written out, so that whoever gives it up calls this, and is not proved over each part of it.
impl Drop for Cell {
    fn drop(self) {
        let Cell {
            at: _at,
            patterns: _patterns,
        } = self;
    }
}

impl Cell {
    pub fn with_pattern(self, pattern: Variant) -> Result<Cell, Memory>
        ensures { IfOk result (λ r. r ≡ record self { patterns = append self.patterns pattern }) }
    {
        let Cell { at, patterns } = self;
        let mut patterns = patterns;
        sn_stack::append(&mut patterns, pattern)?;
        Ok(Cell { at, patterns })
    }

    pub fn sync(self) -> Kept<NetExpr>
        ensures { result ≡ kept.leaf (sync_at self.at self.patterns) }
    {
        let Cell { at, patterns } = self;
        leaf(NetExpr {
            at,
            form: NetForm::Sync { patterns },
        })
    }
}
