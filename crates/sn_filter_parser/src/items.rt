ghost use Rattle.std.specs.Prelude.{◌≡◌, ◌≢◌, List, ◌↔◌, IfOk, Ok, Some};
ghost use Rattle.sn_ast.specs.Kept.{Kept as SomeKept, kept};
ghost use Rattle.sn_ast.specs.Networks.{Items, computed_item, renamed_item, same_item};
ghost use Rattle.sn_ast.specs.Rows.{with_part};
ghost use Rattle.sn_ast.specs.declared.network.ItemAt.{ItemAt as SomeItem};
ghost use Rattle.sn_ast.specs.declared.terminal.Terminal.{Terminal as SomeTerminal};
ghost use Rattle.sn_ast.specs.declared.terminal.Terminal.TheVariants.{Symbol as SomeSymbol};
ghost use Rattle.sn_filter_parser.specs.ItemResidual.{Completes, Steps, StepsIn};
ghost use Rattle.sn_filter_parser.specs.declared.items.Mode.TheVariants.{First, Item, Named, Tagged, Renamed, Computed, After};
ghost use Rattle.sn_type_parser.specs.Reads.{Read, read};

use sn_ast::measure::{append, leaf, no_row};
use sn_ast::{Ident, ItemAt, ItemSource, Kept, LabelAt, Symbol, TExpr, Terminal};
use sn_expr_parser::{TagParser, TagStop};
use sn_list::{Memory, Seq};
use std::alloc::Global;

/// Why items are not read on.
#[derive(Drop)]
pub enum ItemStop {
    Memory,
    Refused,
}

impl From<Memory> for ItemStop {
    ghost use Rattle.std.specs.Prelude.{◌≡◌};
    ghost use Rattle.sn_filter_parser.specs.declared.items.ItemStop.TheVariants.{Memory};

    ghost from_gives = { λ _ e. e ≡ Memory };

    fn from(_: Memory) -> ItemStop {
        ItemStop::Memory
    }
}

/// What comes next.
#[derive(Drop)]
enum Mode {
    /// An item, or the closing brace.
    First,
    Item,
    /// After a name: `=`, or what follows an item.
    Named { name: Ident },
    /// After a tag: the same.
    Tagged { tag: Ident },
    /// The name that the new one is set from.
    Renamed { new: Ident },
    /// What the tag is computed by.
    Computed { tag: Ident, expr: TagParser },
    /// A comma, or the closing brace.
    After,
}

/// Reads `item, item, ..` and the closing brace of a template, after the opening one.
pub struct ItemParser {
    items: Kept<Seq<ItemAt>>,
    mode: Mode,
}

/// Written out, so that whoever gives a parser up calls this, and is not proved over each form of it.
impl Drop for ItemParser {
    fn drop(self) {
        let ItemParser {
            items: _items,
            mode: _mode,
        } = self;
    }
}

/// What a token led to.
#[derive(Drop)]
pub enum ItemStep {
    More(ItemParser),
    /// The token was the closing brace.
    Done(Kept<Seq<ItemAt>>),
}

impl ItemParser {
    /// Stands after the opening brace.
    pub fn start(alloc: Global) -> ItemParser
        ensures from { (w us : List SomeTerminal) (all : SomeKept (List SomeItem)) → Items kept w all us → Completes result w (read all us) }
        ensures to { (w : List SomeTerminal) (t : Read (SomeKept (List SomeItem))) → Completes result w t → Items kept w t.part t.rest }
    {
        ItemParser {
            items: no_row(alloc),
            mode: Mode::First,
        }
    }

    /// Takes the next token: answers the items where it is the closing brace, and refuses it where no items go on with
    /// it.
    pub fn step(self, alloc: Global, token: Terminal) -> Result<ItemStep, ItemStop>
        ensures { Steps self token result }
    {
        let ItemParser { items, mode } = self;
        match mode {
            Mode::First => first(items, token),
            Mode::Item => item(items, token),
            Mode::Named { name } => after_name(items, name, token),
            Mode::Tagged { tag } => after_tag(alloc, items, tag, token),
            Mode::Renamed { new } => renamed(items, new, token),
            Mode::Computed { tag, expr } => computed(alloc, items, tag, expr, token),
            Mode::After => after(items, token),
        }
    }
}

fn first(items: Kept<Seq<ItemAt>>, token: Terminal) -> Result<ItemStep, ItemStop>
    ensures { StepsIn items First token result }
{
    match token.symbol_at(Symbol::CloseBrace) {
        Some(_) => Ok(ItemStep::Done(items)),
        None => item(items, token),
    }
}

fn item(items: Kept<Seq<ItemAt>>, token: Terminal) -> Result<ItemStep, ItemStop>
    ensures { StepsIn items Item token result }
{
    match token {
        Terminal::Name(name) => Ok(ItemStep::More(ItemParser {
            items,
            mode: Mode::Named { name },
        })),
        Terminal::Tag(tag) => Ok(ItemStep::More(ItemParser {
            items,
            mode: Mode::Tagged { tag },
        })),
        _ => Err(ItemStop::Refused),
    }
}

fn after_name(items: Kept<Seq<ItemAt>>, name: Ident, token: Terminal) -> Result<ItemStep, ItemStop>
    ensures { StepsIn items (Named name) token result }
{
    match token.symbol_at(Symbol::Assign) {
        Some(_) => Ok(ItemStep::More(ItemParser {
            items,
            mode: Mode::Renamed { new: name },
        })),
        None => {
            let items = append(items, same(false, name))?;
            after(items, token)
        }
    }
}

fn after_tag(
    alloc: Global,
    items: Kept<Seq<ItemAt>>,
    tag: Ident,
    token: Terminal,
) -> Result<ItemStep, ItemStop>
    ensures { StepsIn items (Tagged tag) token result }
{
    match token.symbol_at(Symbol::Assign) {
        Some(_) => Ok(ItemStep::More(ItemParser {
            items,
            mode: Mode::Computed {
                tag,
                expr: TagParser::start(alloc),
            },
        })),
        None => {
            let items = append(items, same(true, tag))?;
            after(items, token)
        }
    }
}

fn renamed(items: Kept<Seq<ItemAt>>, new: Ident, token: Terminal) -> Result<ItemStep, ItemStop>
    ensures { StepsIn items (Renamed new) token result }
{
    let Terminal::Name(old) = token else {
        return Err(ItemStop::Refused);
    };
    let items = append(items, rename(new, old))?;
    Ok(ItemStep::More(ItemParser {
        items,
        mode: Mode::After,
    }))
}

fn computed(
    alloc: Global,
    items: Kept<Seq<ItemAt>>,
    tag: Ident,
    expr: TagParser,
    token: Terminal,
) -> Result<ItemStep, ItemStop>
    ensures { StepsIn items (Computed tag expr) token result }
{
    match expr.step(alloc, token) {
        Ok(expr) => Ok(ItemStep::More(ItemParser {
            items,
            mode: Mode::Computed { tag, expr },
        })),
        Err(TagStop::Memory) => Err(ItemStop::Memory),
        Err(TagStop::Refused) => Err(ItemStop::Refused),
        Err(TagStop::Ended { part, symbol, at }) => {
            let items = append(items, compute(tag, part))?;
            after(items, Terminal::Symbol { symbol, at })
        }
    }
}

fn after(items: Kept<Seq<ItemAt>>, token: Terminal) -> Result<ItemStep, ItemStop>
    ensures { StepsIn items After token result }
{
    if let Some(_) = token.symbol_at(Symbol::CloseBrace) {
        return Ok(ItemStep::Done(items));
    }
    match token.symbol_at(Symbol::Comma) {
        Some(_) => Ok(ItemStep::More(ItemParser {
            items,
            mode: Mode::Item,
        })),
        None => Err(ItemStop::Refused),
    }
}

/// A label with the value that it had.
fn same(tag: bool, name: Ident) -> Kept<ItemAt>
    ensures { result ≡ kept.leaf (same_item (record { tag = tag; name = name })) }
{
    leaf(ItemAt {
        target: LabelAt { tag, name },
        source: ItemSource::Same,
    })
}

/// A field with the value of another.
fn rename(new: Ident, old: Ident) -> Kept<ItemAt>
    ensures { result ≡ kept.leaf (renamed_item new old) }
{
    leaf(ItemAt {
        target: LabelAt {
            tag: false,
            name: new,
        },
        source: ItemSource::Field(old),
    })
}

/// A tag with what an expression gives.
fn compute(tag: Ident, expr: Kept<TExpr>) -> Kept<ItemAt>
    ensures { result ≡ kept.each (computed_item tag) expr }
{
    let (expr, measure) = expr?.into_parts();
    Some(measure.with(ItemAt {
        target: LabelAt {
            tag: true,
            name: tag,
        },
        source: ItemSource::Expr(expr),
    }))
}
