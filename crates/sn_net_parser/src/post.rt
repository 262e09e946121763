ghost use Rattle.std.specs.Prelude.{◌≡◌, None};
ghost use Rattle.sn_ast.specs.Terminals.{link_of};
ghost use Rattle.sn_ast.specs.declared.terminal.Terminal.TheVariants as some_token;
ghost use Rattle.sn_net_parser.specs.Residual.{GuardSteps, StepsIn};
ghost use Rattle.sn_net_parser.specs.declared.machine.Mode.TheVariants as some_mode;

use crate::machine::{Around, Mode, NetParser, NetStop};
use crate::node::{Placing, Repeated};
use crate::tokens::symbol_at;
use sn_ast::{Bracket, Kept, Keyword, Link, NetExpr, Symbol, TExpr, Terminal, Variant};
use sn_expr_parser::{TagParser, TagStop};
use sn_type_parser::{LabelParser, LabelStep, LabelStop};
use std::alloc::Global;

/// Takes the token after a part.
pub fn go_on(
    alloc: Global,
    around: Around,
    part: Kept<NetExpr>,
    token: Terminal,
) -> Result<NetParser, NetStop>
    ensures { StepsIn around (some_mode.Have part) token result }
{
    let Terminal::Symbol { symbol, at } = token else {
        return Err(NetStop::Refused);
    };
    match symbol.link() {
        Some(Link::Branch { det }) => around.branch(alloc, part, symbol, det, at),
        Some(Link::Star { det }) => {
            let star = Repeated::new(alloc, det, at, part)?;
            Ok(NetParser {
                around,
                mode: Mode::Exit { star },
            })
        }
        Some(Link::Split { det }) => {
            let split = Repeated::new(alloc, det, at, part)?;
            Ok(NetParser {
                around,
                mode: Mode::Index { split },
            })
        }
        Some(Link::Place) => {
            let placing = Placing::new(alloc, at, part)?;
            Ok(NetParser {
                around,
                mode: Mode::Node { placing },
            })
        }
        None => unlinked(alloc, around, part, symbol, at),
    }
}

/// Takes a symbol that neither chooses nor repeats nor places.
fn unlinked(
    alloc: Global,
    around: Around,
    part: Kept<NetExpr>,
    symbol: Symbol,
    at: u32,
) -> Result<NetParser, NetStop>
    requires { link_of symbol ≡ None }
    ensures { StepsIn around (some_mode.Have part) (some_token.Symbol symbol at) result }
{
    match symbol {
        Symbol::Dots => around.dots(alloc, part, at),
        Symbol::CloseParen => around.close(part, at),
        Symbol::Semicolon => around.end(part, at),
        _ => Err(NetStop::Refused),
    }
}

/// Takes the token where a star's exit comes next.
pub fn exit(
    alloc: Global,
    around: Around,
    star: Repeated,
    token: Terminal,
) -> Result<NetParser, NetStop>
    ensures { StepsIn around (some_mode.Exit star) token result }
{
    let Some(opening) = symbol_at(token, Symbol::OpenBrace) else {
        return Err(NetStop::Refused);
    };
    Ok(NetParser {
        around,
        mode: Mode::InExit {
            star,
            opening,
            labels: LabelParser::start(alloc, Bracket::Brace),
        },
    })
}

/// Takes a token of an exit, after its opening brace.
pub fn in_exit(
    around: Around,
    star: Repeated,
    opening: u32,
    labels: LabelParser,
    token: Terminal,
) -> Result<NetParser, NetStop>
    ensures { StepsIn around (some_mode.InExit star opening labels) token result }
{
    match labels.step(token) {
        Ok(LabelStep::More(labels)) => Ok(NetParser {
            around,
            mode: Mode::InExit {
                star,
                opening,
                labels,
            },
        }),
        Ok(LabelStep::Done(labels)) => Ok(NetParser {
            around,
            mode: Mode::AfterExit {
                star,
                exit: Variant {
                    labels,
                    at: opening,
                },
            },
        }),
        Err(LabelStop::Memory) => Err(NetStop::Memory),
        Err(LabelStop::Refused) => Err(NetStop::Refused),
    }
}

/// Takes the token after an exit: a guard's `if`, or what follows the star.
pub fn after_exit(
    alloc: Global,
    around: Around,
    star: Repeated,
    exit: Variant,
    token: Terminal,
) -> Result<NetParser, NetStop>
    ensures { StepsIn around (some_mode.AfterExit star exit) token result }
{
    if let Some(_) = token.keyword_at(Keyword::If) {
        return Ok(NetParser {
            around,
            mode: Mode::Guard { star, exit },
        });
    }
    let part = star.star(exit);
    go_on(alloc, around, part, token)
}

/// Takes the token where the opening of a guard comes next.
pub fn guard(
    alloc: Global,
    around: Around,
    star: Repeated,
    exit: Variant,
    token: Terminal,
) -> Result<NetParser, NetStop>
    ensures { StepsIn around (some_mode.Guard star exit) token result }
{
    let Some(_) = symbol_at(token, Symbol::OpenParen) else {
        return Err(NetStop::Refused);
    };
    Ok(NetParser {
        around,
        mode: Mode::InGuard {
            star,
            exit,
            guard: TagParser::start(alloc),
        },
    })
}

/// Takes a token of a guard.
pub fn in_guard(
    alloc: Global,
    around: Around,
    star: Repeated,
    exit: Variant,
    guard: TagParser,
    token: Terminal,
) -> Result<NetParser, NetStop>
    ensures { StepsIn around (some_mode.InGuard star exit guard) token result }
{
    match guard.step(alloc, token) {
        Ok(guard) => Ok(NetParser {
            around,
            mode: Mode::InGuard { star, exit, guard },
        }),
        Err(TagStop::Memory) => Err(NetStop::Memory),
        Err(TagStop::Refused) => Err(NetStop::Refused),
        Err(
            TagStop::Ended {
                part: guard,
                symbol,
                ..
            },
        ) => guarded(around, star, exit, guard, symbol),
    }
}

/// Takes the symbol after a guard, which must close it.
fn guarded(
    around: Around,
    star: Repeated,
    exit: Variant,
    guard: Kept<TExpr>,
    symbol: Symbol,
) -> Result<NetParser, NetStop>
    ensures { GuardSteps around star exit guard symbol result }
{
    if symbol != Symbol::CloseParen {
        return Err(NetStop::Refused);
    }
    let part = star.guarded_star(exit, guard);
    Ok(NetParser {
        around,
        mode: Mode::Have { part },
    })
}

/// Takes the token where the tag of a split comes next, or the `@` before it.
pub fn index(around: Around, split: Repeated, token: Terminal) -> Result<NetParser, NetStop>
    ensures { StepsIn around (some_mode.Index split) token result }
{
    match token {
        Terminal::Tag(tag) => Ok(NetParser {
            around,
            mode: Mode::Have {
                part: split.split(false, tag),
            },
        }),
        Terminal::Symbol { symbol, at } => marked(around, split, symbol, at),
        _ => Err(NetStop::Refused),
    }
}

/// Takes a symbol before the tag of a split, which must be the mark that it is spread.
fn marked(around: Around, split: Repeated, symbol: Symbol, at: u32) -> Result<NetParser, NetStop>
    ensures { StepsIn around (some_mode.Index split) (some_token.Symbol symbol at) result }
{
    match symbol {
        Symbol::At => Ok(NetParser {
            around,
            mode: Mode::SpreadIndex { split },
        }),
        _ => Err(NetStop::Refused),
    }
}

/// Takes the token where the tag of a split that is spread comes next.
pub fn spread_index(around: Around, split: Repeated, token: Terminal) -> Result<NetParser, NetStop>
    ensures { StepsIn around (some_mode.SpreadIndex split) token result }
{
    let Terminal::Tag(tag) = token else {
        return Err(NetStop::Refused);
    };
    let part = split.split(true, tag);
    Ok(NetParser {
        around,
        mode: Mode::Have { part },
    })
}

/// Takes the token where the number of a placed part's node comes next.
pub fn node(around: Around, placing: Placing, token: Terminal) -> Result<NetParser, NetStop>
    ensures { StepsIn around (some_mode.Node placing) token result }
{
    let Terminal::Number { value, .. } = token else {
        return Err(NetStop::Refused);
    };
    if value < 0 {
        return Err(NetStop::Refused);
    }
    let part = placing.on(value.unsigned_abs());
    Ok(NetParser {
        around,
        mode: Mode::Have { part },
    })
}
