use crate::label::{Ident, LabelAt, Variant};
use crate::tag_expr::TExpr;
use sn_list::{Boxed, Seq};

/// A network. Its place is that of the name where it is one, of its opening bracket, of its first `..` or choice
/// operator, of the operator of a star or split, or of its `@`.
#[cycle(network)]
#[derive(Drop)]
pub struct NetExpr {
    pub at: u32,
    pub form: NetForm,
}

#[cycle(network)]
#[derive(Drop)]
pub enum NetForm {
    Name(Ident),
    Identity,
    Filter {
        pattern: Variant,
        arms: Seq<ArmAt>,
        /// The last list.
        templates: Seq<TemplateAt>,
    },
    Sync {
        patterns: Seq<Variant>,
    },
    Serial {
        parts: Seq<NetExpr>,
    },
    Choice {
        det: bool,
        branches: Seq<NetExpr>,
    },
    Star {
        det: bool,
        body: Boxed<NetExpr>,
        exit: Variant,
        guard: Option<TExpr>,
    },
    Split {
        det: bool,
        /// Whether the replicas are spread over the logical nodes, each to that of its tag.
        spread: bool,
        body: Boxed<NetExpr>,
        tag: Ident,
    },
    /// A part that runs on a logical node.
    Placed {
        body: Boxed<NetExpr>,
        node: u64,
    },
}

/// A guard of a filter, and what the filter emits where it is the first that is not 0.
#[derive(Drop)]
pub struct ArmAt {
    pub guard: TExpr,
    pub templates: Seq<TemplateAt>,
}

/// What a filter emits, and the place of its `{`.
#[derive(Drop)]
pub struct TemplateAt {
    pub items: Seq<ItemAt>,
    pub at: u32,
}

/// A label of a template, and where its value comes from.
#[derive(Drop)]
pub struct ItemAt {
    pub target: LabelAt,
    pub source: ItemSource,
}

#[derive(Drop)]
pub enum ItemSource {
    /// The label of the same name.
    Same,
    Field(Ident),
    Expr(TExpr),
}
