ghost use Rattle.std.specs.Prelude.{◌≡◌, List, Some};
ghost use Rattle.sn_ast.specs.Kept.{Kept as SomeKept, kept};
ghost use Rattle.sn_ast.specs.Networks.{Network};
ghost use Rattle.sn_ast.specs.declared.network.NetExpr.{NetExpr as SomeNet};
ghost use Rattle.sn_ast.specs.Terminals.{link_of};
ghost use Rattle.sn_ast.specs.declared.terminal.Link.TheVariants as some_link;
ghost use Rattle.sn_ast.specs.declared.terminal.Symbol.TheVariants as some_symbol;
ghost use Rattle.sn_ast.specs.declared.terminal.Terminal.{Terminal as SomeTerminal};
ghost use Rattle.sn_ast.specs.declared.terminal.Terminal.TheVariants as some_token;
ghost use Rattle.sn_net_parser.specs.Residual.{Completes, Ends, Read, Steps, StepsIn, read};
ghost use Rattle.sn_net_parser.specs.declared.machine.Mode.TheVariants as some_mode;

use crate::level::Level;
use crate::node::{Cell, Placing, Repeated};
use crate::{atom, post};
use sn_ast::measure::parens;
use sn_ast::{Kept, NetExpr, Symbol, Terminal, Variant};
use sn_expr_parser::TagParser;
use sn_filter_parser::FilterParser;
use sn_list::Memory;
use sn_stack::Stack;
use sn_type_parser::LabelParser;
use std::alloc::Global;

/// Why a network is not read on.
#[derive(Drop)]
pub enum NetStop {
    Memory,
    /// No network goes on with the token.
    Refused,
    /// The network is whole, and the token, a semicolon at the place, stands after it.
    Ended { network: Kept<NetExpr>, at: u32 },
}

impl From<Memory> for NetStop {
    ghost use Rattle.std.specs.Prelude.{◌≡◌};
    ghost use Rattle.sn_net_parser.specs.declared.machine.NetStop.TheVariants.{Memory};

    ghost from_gives = { λ _ e. e ≡ Memory };

    fn from(_: Memory) -> NetStop {
        NetStop::Memory
    }
}

/// The open levels of parentheses that a part stands in, and the innermost of them.
pub struct Around {
    pub outer: Stack<Level>,
    pub level: Level,
}

/// Written out, so that whoever gives it up calls this, and is not proved over each part of it.
impl Drop for Around {
    fn drop(self) {
        let Around {
            outer: _outer,
            level: _level,
        } = self;
    }
}

/// What takes the levels apart, which only methods can.
impl Around {
    /// Takes an opening parenthesis.
    pub fn open(self, at: u32) -> Result<NetParser, NetStop>
        ensures { StepsIn self some_mode.Want (some_token.Symbol some_symbol.OpenParen at) result }
    {
        let Around { outer, level } = self;
        let mut outer = outer;
        outer.push(level)?;
        Ok(NetParser {
            around: Around {
                outer,
                level: Level::new(),
            },
            mode: Mode::Want,
        })
    }

    /// Takes the dots after a part.
    pub fn dots(self, alloc: Global, part: Kept<NetExpr>, at: u32) -> Result<NetParser, NetStop>
        ensures { StepsIn self (some_mode.Have part) (some_token.Symbol some_symbol.Dots at) result }
    {
        let Around { outer, level } = self;
        let level = level.after_dots(alloc, at, part)?;
        Ok(NetParser {
            around: Around { outer, level },
            mode: Mode::Want,
        })
    }

    /// Takes the operator of a choice after a part.
    pub fn branch(
        self,
        alloc: Global,
        part: Kept<NetExpr>,
        symbol: Symbol,
        det: bool,
        at: u32,
    ) -> Result<NetParser, NetStop>
        requires { link_of symbol ≡ Some (some_link.Branch det) }
        ensures { StepsIn self (some_mode.Have part) (some_token.Symbol symbol at) result }
    {
        let Around { outer, level } = self;
        if !level.goes_on(det) {
            return Err(NetStop::Refused);
        }
        let level = level.after_bar(alloc, det, at, part)?;
        Ok(NetParser {
            around: Around { outer, level },
            mode: Mode::Want,
        })
    }

    /// Takes the parenthesis that closes the innermost level.
    pub fn close(self, part: Kept<NetExpr>, at: u32) -> Result<NetParser, NetStop>
        ensures { StepsIn self (some_mode.Have part) (some_token.Symbol some_symbol.CloseParen at) result }
    {
        let Around { outer, level } = self;
        let mut outer = outer;
        let Some(outside) = outer.pop() else {
            return Err(NetStop::Refused);
        };
        let inner = level.finish(part)?;
        Ok(NetParser {
            around: Around {
                outer,
                level: outside,
            },
            mode: Mode::Have {
                part: parens(inner),
            },
        })
    }

    /// Takes the semicolon, which ends a network in no parentheses.
    pub fn end(self, part: Kept<NetExpr>, at: u32) -> Result<NetParser, NetStop>
        ensures { StepsIn self (some_mode.Have part) (some_token.Symbol some_symbol.Semicolon at) result }
    {
        let Around { outer, level } = self;
        let mut outer = outer;
        if let Some(_) = outer.pop() {
            return Err(NetStop::Refused);
        }
        let network = level.finish(part)?;
        Err(NetStop::Ended { network, at })
    }
}

/// What comes next.
#[derive(Drop)]
pub enum Mode {
    /// An atom.
    Want,
    /// What may stand after a part.
    Have {
        part: Kept<NetExpr>,
    },
    /// What stands after `[`.
    Bracket {
        at: u32,
    },
    InFilter {
        filter: FilterParser,
    },
    /// A synchrocell's pattern.
    Pattern {
        cell: Cell,
    },
    InPattern {
        cell: Cell,
        opening: u32,
        labels: LabelParser,
    },
    AfterPattern {
        cell: Cell,
    },
    /// A star's exit.
    Exit {
        star: Repeated,
    },
    InExit {
        star: Repeated,
        opening: u32,
        labels: LabelParser,
    },
    AfterExit {
        star: Repeated,
        exit: Variant,
    },
    /// The `(` of a guard.
    Guard {
        star: Repeated,
        exit: Variant,
    },
    InGuard {
        star: Repeated,
        exit: Variant,
        guard: TagParser,
    },
    /// A split's tag, or the `@` before it.
    Index {
        split: Repeated,
    },
    /// The tag of a split that is spread.
    SpreadIndex {
        split: Repeated,
    },
    /// The number of a placed part's node.
    Node {
        placing: Placing,
    },
}

/// A network that is being read.
pub struct NetParser {
    pub around: Around,
    pub mode: Mode,
}

/// Written out, so that whoever gives a parser up calls this, and is not proved over each part of it.
impl Drop for NetParser {
    fn drop(self) {
        let NetParser {
            around: _around,
            mode: _mode,
        } = self;
    }
}

impl NetParser {
    pub fn start(alloc: Global) -> NetParser
        ensures from { (w us : List SomeTerminal) (n : SomeKept SomeNet) → Network kept w n us → Ends us → Completes result w (read n us) }
        ensures to { (w : List SomeTerminal) (t : Read) → Completes result w t → Network kept w t.network t.rest × Ends t.rest }
    {
        NetParser {
            around: Around {
                outer: Stack::new(alloc),
                level: Level::new(),
            },
            mode: Mode::Want,
        }
    }

    /// Takes the next token.
    pub fn step(self, alloc: Global, token: Terminal) -> Result<NetParser, NetStop>
        ensures { Steps self token result }
    {
        let NetParser { around, mode } = self;
        match mode {
            Mode::Want => atom::begin(alloc, around, token),
            Mode::Have { part } => post::go_on(alloc, around, part, token),
            Mode::Bracket { at } => atom::bracket(alloc, around, at, token),
            Mode::InFilter { filter } => atom::in_filter(alloc, around, filter, token),
            Mode::Pattern { cell } => atom::pattern(alloc, around, cell, token),
            Mode::InPattern {
                cell,
                opening,
                labels,
            } => { atom::in_pattern(around, cell, opening, labels, token) }
            Mode::AfterPattern { cell } => atom::after_pattern(around, cell, token),
            Mode::Exit { star } => post::exit(alloc, around, star, token),
            Mode::InExit {
                star,
                opening,
                labels,
            } => { post::in_exit(around, star, opening, labels, token) }
            Mode::AfterExit { star, exit } => post::after_exit(alloc, around, star, exit, token),
            Mode::Guard { star, exit } => post::guard(alloc, around, star, exit, token),
            Mode::InGuard { star, exit, guard } => {
                post::in_guard(alloc, around, star, exit, guard, token)
            }
            Mode::Index { split } => post::index(around, split, token),
            Mode::SpreadIndex { split } => post::spread_index(around, split, token),
            Mode::Node { placing } => post::node(around, placing, token),
        }
    }
}
