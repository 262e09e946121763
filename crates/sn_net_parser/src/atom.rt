ghost use Rattle.sn_net_parser.specs.Residual.{StepsIn};
ghost use Rattle.sn_net_parser.specs.declared.machine.Mode.TheVariants as some_mode;
ghost use Rattle.sn_ast.specs.declared.terminal.Terminal.TheVariants as some_token;

use crate::machine::{Around, Mode, NetParser, NetStop};
use crate::node::{self, Cell};
use crate::tokens::symbol_at;
use sn_ast::{Bracket, Seq, Symbol, Terminal, Variant};
use sn_filter_parser::{FilterParser, FilterStep, FilterStop};
use sn_type_parser::{LabelParser, LabelStep, LabelStop};
use std::alloc::Global;

/// Takes the token where an atom comes next.
pub fn begin(alloc: Global, around: Around, token: Terminal) -> Result<NetParser, NetStop>
    ensures { StepsIn around some_mode.Want token result }
{
    match token {
        Terminal::Name(name) => Ok(NetParser {
            around,
            mode: Mode::Have {
                part: node::name(name),
            },
        }),
        Terminal::Symbol { symbol, at } => begin_symbol(alloc, around, symbol, at),
        _ => Err(NetStop::Refused),
    }
}

fn begin_symbol(
    alloc: Global,
    around: Around,
    symbol: Symbol,
    at: u32,
) -> Result<NetParser, NetStop>
    ensures { StepsIn around some_mode.Want (some_token.Symbol symbol at) result }
{
    match symbol {
        Symbol::OpenParen => around.open(at),
        Symbol::OpenBracket => Ok(NetParser {
            around,
            mode: Mode::Bracket { at },
        }),
        Symbol::OpenSync => Ok(NetParser {
            around,
            mode: Mode::Pattern {
                cell: Cell {
                    at,
                    patterns: Seq::new(alloc),
                },
            },
        }),
        _ => Err(NetStop::Refused),
    }
}

/// Takes the token after `[`.
pub fn bracket(
    alloc: Global,
    around: Around,
    at: u32,
    token: Terminal,
) -> Result<NetParser, NetStop>
    ensures { StepsIn around (some_mode.Bracket at) token result }
{
    if let Some(_) = token.symbol_at(Symbol::CloseBracket) {
        return Ok(NetParser {
            around,
            mode: Mode::Have {
                part: node::identity(at),
            },
        });
    }
    in_filter(alloc, around, FilterParser::start(at), token)
}

/// Takes a token of a filter.
pub fn in_filter(
    alloc: Global,
    around: Around,
    filter: FilterParser,
    token: Terminal,
) -> Result<NetParser, NetStop>
    ensures { StepsIn around (some_mode.InFilter filter) token result }
{
    match filter.step(alloc, token) {
        Ok(FilterStep::More(filter)) => Ok(NetParser {
            around,
            mode: Mode::InFilter { filter },
        }),
        Ok(FilterStep::Done(part)) => Ok(NetParser {
            around,
            mode: Mode::Have { part },
        }),
        Err(FilterStop::Memory) => Err(NetStop::Memory),
        Err(FilterStop::Refused) => Err(NetStop::Refused),
    }
}

/// Takes the token where a pattern of a synchrocell comes next.
pub fn pattern(
    alloc: Global,
    around: Around,
    cell: Cell,
    token: Terminal,
) -> Result<NetParser, NetStop>
    ensures { StepsIn around (some_mode.Pattern cell) token result }
{
    let Some(opening) = symbol_at(token, Symbol::OpenBrace) else {
        return Err(NetStop::Refused);
    };
    Ok(NetParser {
        around,
        mode: Mode::InPattern {
            cell,
            opening,
            labels: LabelParser::start(alloc, Bracket::Brace),
        },
    })
}

/// Takes a token of a pattern, after its opening brace.
pub fn in_pattern(
    around: Around,
    cell: Cell,
    opening: u32,
    labels: LabelParser,
    token: Terminal,
) -> Result<NetParser, NetStop>
    ensures { StepsIn around (some_mode.InPattern cell opening labels) token result }
{
    match labels.step(token) {
        Ok(LabelStep::More(labels)) => Ok(NetParser {
            around,
            mode: Mode::InPattern {
                cell,
                opening,
                labels,
            },
        }),
        Ok(LabelStep::Done(labels)) => {
            let cell = cell.with_pattern(Variant {
                labels,
                at: opening,
            })?;
            Ok(NetParser {
                around,
                mode: Mode::AfterPattern { cell },
            })
        }
        Err(LabelStop::Memory) => Err(NetStop::Memory),
        Err(LabelStop::Refused) => Err(NetStop::Refused),
    }
}

/// Takes the token after a pattern.
pub fn after_pattern(around: Around, cell: Cell, token: Terminal) -> Result<NetParser, NetStop>
    ensures { StepsIn around (some_mode.AfterPattern cell) token result }
{
    if let Some(_) = token.symbol_at(Symbol::Comma) {
        return Ok(NetParser {
            around,
            mode: Mode::Pattern { cell },
        });
    }
    let Some(_) = symbol_at(token, Symbol::CloseSync) else {
        return Err(NetStop::Refused);
    };
    Ok(NetParser {
        around,
        mode: Mode::Have { part: cell.sync() },
    })
}
