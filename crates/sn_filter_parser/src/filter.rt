ghost use Rattle.std.specs.Prelude.{◌≡◌, List, ◌↔◌, IfOk};
ghost use Rattle.sn_ast.specs.Kept.{Kept as SomeKept, kept};
ghost use Rattle.sn_ast.specs.Networks.{Filter, arm_of, filter_at};
ghost use Rattle.sn_ast.specs.declared.network.NetExpr.{NetExpr as SomeNet};
ghost use Rattle.sn_ast.specs.declared.terminal.Terminal.{Terminal as SomeTerminal};
ghost use Rattle.sn_filter_parser.specs.FilterResidual.{ArmSteps, CloseSteps, Completes, GuardCloses, Steps, StepsIn, begun_with, template_at, with_arm};
ghost use Rattle.sn_filter_parser.specs.declared.filter.Mode.TheVariants as some_mode;
ghost use Rattle.sn_type_parser.specs.Reads.{Read, read};

use crate::items::{ItemParser, ItemStep, ItemStop};
use sn_ast::measure::{append, join, no_row};
use sn_ast::{
    ArmAt, Bracket, ItemAt, Kept, Keyword, NetExpr, NetForm, Symbol, TExpr, TemplateAt, Terminal,
    Variant,
};
use sn_expr_parser::{TagParser, TagStop};
use sn_list::{Memory, Seq};
use sn_type_parser::{LabelParser, LabelStep, LabelStop};
use std::alloc::Global;

/// Why a filter is not read on.
#[derive(Drop)]
pub enum FilterStop {
    Memory,
    Refused,
}

impl From<Memory> for FilterStop {
    ghost use Rattle.std.specs.Prelude.{◌≡◌};
    ghost use Rattle.sn_filter_parser.specs.declared.filter.FilterStop.TheVariants.{Memory};

    ghost from_gives = { λ _ e. e ≡ Memory };

    fn from(_: Memory) -> FilterStop {
        FilterStop::Memory
    }
}

/// The pattern of a filter, and the arms that were read.
#[derive(Drop)]
struct Begun {
    pattern: Variant,
    arms: Kept<Seq<ArmAt>>,
}

/// Whose templates are read.
#[derive(Drop)]
enum Listed {
    /// Those of an arm with the guard.
    OfArm(Kept<TExpr>),
    /// Those of the last list.
    Last,
}

/// The templates so far of a list.
#[derive(Drop)]
struct Templates {
    of: Listed,
    so_far: Kept<Seq<TemplateAt>>,
}

/// What comes next, with what was read before it.
#[derive(Drop)]
enum Mode {
    /// The brace that opens the pattern.
    Open,
    /// What is in the pattern, whose opening brace is at the place.
    Pattern {
        at: u32,
        labels: LabelParser,
    },
    /// The arrow, or the `if` of the first arm.
    First {
        pattern: Variant,
    },
    /// The `(` of a guard.
    Guard {
        begun: Begun,
    },
    /// What is in a guard.
    InGuard {
        begun: Begun,
        guard: TagParser,
    },
    /// The arrow before a list.
    Arrow {
        begun: Begun,
        of: Listed,
    },
    /// The brace that opens a template.
    Template {
        begun: Begun,
        templates: Templates,
    },
    /// What is in a template, whose opening brace is at the place.
    Items {
        begun: Begun,
        templates: Templates,
        at: u32,
        items: ItemParser,
    },
    /// A semicolon; or the closing bracket after the last list, and an `if` or `else` after another.
    After {
        begun: Begun,
        templates: Templates,
    },
}

/// Reads a pattern, arms and templates, and the closing bracket of a filter, after the opening one, which is at the place.
pub struct FilterParser {
    at: u32,
    mode: Mode,
}

/// Written out, so that whoever gives a parser up calls this, and is not proved over each form of it.
impl Drop for FilterParser {
    fn drop(self) {
        let FilterParser {
            at: _at,
            mode: _mode,
        } = self;
    }
}

/// What a token led to.
#[derive(Drop)]
pub enum FilterStep {
    More(FilterParser),
    /// The token was the closing bracket.
    Done(Kept<NetExpr>),
}

impl FilterParser {
    /// Stands after the opening bracket of a filter, which is at the place.
    pub fn start(at: u32) -> FilterParser
        ensures from { (w us : List SomeTerminal) (n : SomeKept SomeNet) → Filter kept at w n us → Completes result w (read n us) }
        ensures to { (w : List SomeTerminal) (t : Read (SomeKept SomeNet)) → Completes result w t → Filter kept at w t.part t.rest }
    {
        FilterParser {
            at,
            mode: Mode::Open,
        }
    }

    /// Takes the next token: answers the filter where it is the closing bracket, and refuses it where no filter goes on
    /// with it.
    pub fn step(self, alloc: Global, token: Terminal) -> Result<FilterStep, FilterStop>
        ensures { Steps self token result }
    {
        let FilterParser { at, mode } = self;
        match mode {
            Mode::Open => begin_pattern(alloc, at, token),
            Mode::Pattern {
                at: opening,
                labels,
            } => in_pattern(at, opening, labels, token),
            Mode::First { pattern } => first(alloc, at, pattern, token),
            Mode::Guard { begun } => guard(alloc, at, begun, token),
            Mode::InGuard { begun, guard } => in_guard(alloc, at, begun, guard, token),
            Mode::Arrow { begun, of } => arrow(alloc, at, begun, of, token),
            Mode::Template { begun, templates } => begin_template(
                alloc, at, begun, templates, token,
            ),
            Mode::Items {
                begun,
                templates,
                at: opening,
                items,
            } => in_items(alloc, at, begun, templates, opening, items, token),
            Mode::After { begun, templates } => after(at, begun, templates, token),
        }
    }
}

fn begin_pattern(alloc: Global, at: u32, token: Terminal) -> Result<FilterStep, FilterStop>
    ensures { StepsIn at some_mode.Open token result }
{
    match token.symbol_at(Symbol::OpenBrace) {
        Some(opening) => Ok(FilterStep::More(FilterParser {
            at,
            mode: Mode::Pattern {
                at: opening,
                labels: LabelParser::start(alloc, Bracket::Brace),
            },
        })),
        None => Err(FilterStop::Refused),
    }
}

fn in_pattern(
    at: u32,
    opening: u32,
    labels: LabelParser,
    token: Terminal,
) -> Result<FilterStep, FilterStop>
    ensures { StepsIn at (some_mode.Pattern opening labels) token result }
{
    match labels.step(token) {
        Ok(LabelStep::More(labels)) => Ok(FilterStep::More(FilterParser {
            at,
            mode: Mode::Pattern {
                at: opening,
                labels,
            },
        })),
        Ok(LabelStep::Done(labels)) => Ok(FilterStep::More(FilterParser {
            at,
            mode: Mode::First {
                pattern: Variant {
                    labels,
                    at: opening,
                },
            },
        })),
        Err(LabelStop::Memory) => Err(FilterStop::Memory),
        Err(LabelStop::Refused) => Err(FilterStop::Refused),
    }
}

/// A filter of which the pattern alone was read.
fn begun_with(alloc: Global, pattern: Variant) -> Begun
    ensures { result ≡ begun_with pattern }
{
    Begun {
        pattern,
        arms: no_row(alloc),
    }
}

/// Takes the token after the pattern: the arrow of the one list, or the `if` of the first arm.
fn first(
    alloc: Global,
    at: u32,
    pattern: Variant,
    token: Terminal,
) -> Result<FilterStep, FilterStop>
    ensures { StepsIn at (some_mode.First pattern) token result }
{
    let begun = begun_with(alloc, pattern);
    if let Some(_) = token.keyword_at(Keyword::If) {
        return Ok(FilterStep::More(FilterParser {
            at,
            mode: Mode::Guard { begun },
        }));
    }
    arrow(alloc, at, begun, Listed::Last, token)
}

fn guard(alloc: Global, at: u32, begun: Begun, token: Terminal) -> Result<FilterStep, FilterStop>
    ensures { StepsIn at (some_mode.Guard begun) token result }
{
    match token.symbol_at(Symbol::OpenParen) {
        Some(_) => Ok(FilterStep::More(FilterParser {
            at,
            mode: Mode::InGuard {
                begun,
                guard: TagParser::start(alloc),
            },
        })),
        None => Err(FilterStop::Refused),
    }
}

fn in_guard(
    alloc: Global,
    at: u32,
    begun: Begun,
    guard: TagParser,
    token: Terminal,
) -> Result<FilterStep, FilterStop>
    ensures { StepsIn at (some_mode.InGuard begun guard) token result }
{
    match guard.step(alloc, token) {
        Ok(guard) => Ok(FilterStep::More(FilterParser {
            at,
            mode: Mode::InGuard { begun, guard },
        })),
        Err(TagStop::Memory) => Err(FilterStop::Memory),
        Err(TagStop::Refused) => Err(FilterStop::Refused),
        Err(
            TagStop::Ended {
                part: guard,
                symbol,
                ..
            },
        ) => guarded(at, begun, guard, symbol),
    }
}

/// Takes the symbol after a guard, which must close it.
fn guarded(
    at: u32,
    begun: Begun,
    guard: Kept<TExpr>,
    symbol: Symbol,
) -> Result<FilterStep, FilterStop>
    ensures { GuardCloses at begun guard symbol result }
{
    if symbol != Symbol::CloseParen {
        return Err(FilterStop::Refused);
    }
    Ok(FilterStep::More(FilterParser {
        at,
        mode: Mode::Arrow {
            begun,
            of: Listed::OfArm(guard),
        },
    }))
}

/// Takes the arrow before a list.
fn arrow(
    alloc: Global,
    at: u32,
    begun: Begun,
    of: Listed,
    token: Terminal,
) -> Result<FilterStep, FilterStop>
    ensures { StepsIn at (some_mode.Arrow begun of) token result }
{
    match token.symbol_at(Symbol::Arrow) {
        Some(_) => Ok(FilterStep::More(FilterParser {
            at,
            mode: Mode::Template {
                begun,
                templates: Templates {
                    of,
                    so_far: no_row(alloc),
                },
            },
        })),
        None => Err(FilterStop::Refused),
    }
}

fn begin_template(
    alloc: Global,
    at: u32,
    begun: Begun,
    templates: Templates,
    token: Terminal,
) -> Result<FilterStep, FilterStop>
    ensures { StepsIn at (some_mode.Template begun templates) token result }
{
    match token.symbol_at(Symbol::OpenBrace) {
        Some(opening) => Ok(FilterStep::More(FilterParser {
            at,
            mode: Mode::Items {
                begun,
                templates,
                at: opening,
                items: ItemParser::start(alloc),
            },
        })),
        None => Err(FilterStop::Refused),
    }
}

fn in_items(
    alloc: Global,
    at: u32,
    begun: Begun,
    templates: Templates,
    opening: u32,
    items: ItemParser,
    token: Terminal,
) -> Result<FilterStep, FilterStop>
    ensures { StepsIn at (some_mode.Items begun templates opening items) token result }
{
    match items.step(alloc, token) {
        Ok(ItemStep::More(items)) => Ok(FilterStep::More(FilterParser {
            at,
            mode: Mode::Items {
                begun,
                templates,
                at: opening,
                items,
            },
        })),
        Ok(ItemStep::Done(items)) => {
            let Templates { of, so_far } = templates;
            let so_far = append(so_far, with_place(opening, items))?;
            Ok(FilterStep::More(FilterParser {
                at,
                mode: Mode::After {
                    begun,
                    templates: Templates { of, so_far },
                },
            }))
        }
        Err(ItemStop::Memory) => Err(FilterStop::Memory),
        Err(ItemStop::Refused) => Err(FilterStop::Refused),
    }
}

/// Takes the token after a template.
fn after(
    at: u32,
    begun: Begun,
    templates: Templates,
    token: Terminal,
) -> Result<FilterStep, FilterStop>
    ensures { StepsIn at (some_mode.After begun templates) token result }
{
    if let Some(_) = token.symbol_at(Symbol::Semicolon) {
        return Ok(FilterStep::More(FilterParser {
            at,
            mode: Mode::Template { begun, templates },
        }));
    }
    let Templates { of, so_far } = templates;
    match of {
        Listed::Last => close(at, begun, so_far, token),
        Listed::OfArm(guard) => after_arm(at, begun, guard, so_far, token),
    }
}

/// Takes the bracket after the last list.
fn close(
    at: u32,
    begun: Begun,
    all: Kept<Seq<TemplateAt>>,
    token: Terminal,
) -> Result<FilterStep, FilterStop>
    ensures { CloseSteps at begun all token result }
{
    match token.symbol_at(Symbol::CloseBracket) {
        Some(_) => Ok(FilterStep::Done(filter(at, begun, all))),
        None => Err(FilterStop::Refused),
    }
}

/// Takes the token after the templates of an arm: the `if` of another one, or the `else` of the last list.
fn after_arm(
    at: u32,
    begun: Begun,
    guard: Kept<TExpr>,
    all: Kept<Seq<TemplateAt>>,
    token: Terminal,
) -> Result<FilterStep, FilterStop>
    ensures { ArmSteps at begun guard all token result }
{
    if let Some(_) = token.keyword_at(Keyword::If) {
        let begun = with_arm(begun, guard, all)?;
        return Ok(FilterStep::More(FilterParser {
            at,
            mode: Mode::Guard { begun },
        }));
    }
    let Some(_) = token.keyword_at(Keyword::Else) else {
        return Err(FilterStop::Refused);
    };
    let begun = with_arm(begun, guard, all)?;
    Ok(FilterStep::More(FilterParser {
        at,
        mode: Mode::Arrow {
            begun,
            of: Listed::Last,
        },
    }))
}

/// The arm of the guard and its templates.
fn arm(guard: Kept<TExpr>, templates: Kept<Seq<TemplateAt>>) -> Kept<ArmAt>
    ensures { result ≡ kept.join arm_of guard templates }
{
    let ((guard, templates), measure) = join(guard, templates)?.into_parts();
    Some(measure.with(ArmAt { guard, templates }))
}

/// One arm more.
fn with_arm(
    begun: Begun,
    guard: Kept<TExpr>,
    templates: Kept<Seq<TemplateAt>>,
) -> Result<Begun, Memory>
    ensures { IfOk result (λ r. r ≡ with_arm begun guard templates) }
{
    let Begun { pattern, arms } = begun;
    let arms = append(arms, arm(guard, templates))?;
    Ok(Begun { pattern, arms })
}

/// The template of the items.
fn with_place(at: u32, items: Kept<Seq<ItemAt>>) -> Kept<TemplateAt>
    ensures { result ≡ kept.each (template_at at) items }
{
    let (items, measure) = items?.into_parts();
    Some(measure.with(TemplateAt { items, at }))
}

fn filter(at: u32, begun: Begun, templates: Kept<Seq<TemplateAt>>) -> Kept<NetExpr>
    ensures { result ≡ kept.join (filter_at at begun.pattern) begun.arms templates }
{
    let Begun { pattern, arms } = begun;
    let ((arms, templates), measure) = join(arms, templates)?.into_parts();
    Some(measure.with(NetExpr {
        at,
        form: NetForm::Filter {
            pattern,
            arms,
            templates,
        },
    }))
}
