ghost use Rattle.std.specs.Prelude.{◌≡◌, ◌↔◌, ◌∷◌, IfOk, List, []};
ghost use Rattle.sn_ast.specs.Declarations.{Declarations, with_connect};
ghost use Rattle.sn_ast.specs.Kept.{kept};
ghost use Rattle.sn_ast.specs.Rows.{append};
ghost use Rattle.sn_ast.specs.declared.terminal.Terminal.{Terminal as SomeTerminal};
ghost use Rattle.sn_ast.specs.declared.terminal.Terminal.TheVariants as some_token;
ghost use Rattle.sn_parser.specs.Residual.{Completes, Ends, EndsIn, LeadsTo, Named, Steps, StepsIn};
ghost use Rattle.sn_parser.specs.Scopes.{Decls, after_declaration, wanting, with_inner, with_inner_scope};
ghost use Rattle.sn_parser.specs.declared.machine.Mode.TheVariants as some_mode;

use crate::tokens::into_name;
use crate::{box_decl, net_decl, type_decl};
use sn_ast::measure::{self, join, raise};
use sn_ast::{Decl, Ident, Kept, Keyword, NetDecl, NetExpr, Seq, Sig, Symbol, Terminal};
use sn_box_parser::BoxDeclParser;
use sn_list::Memory;
use sn_net_parser::NetParser;
use sn_stack::Stack;
use sn_type_parser::{SigParser, TypeParser};
use std::alloc::Global;

/// Why the tokens are not read on.
#[derive(Drop)]
pub enum Stop {
    Memory,
    /// No program goes on with the token.
    Refused,
}

impl From<Memory> for Stop {
    ghost use Rattle.std.specs.Prelude.{◌≡◌};
    ghost use Rattle.sn_parser.specs.declared.machine.Stop.TheVariants.{Memory};

    ghost from_gives = { λ _ e. e ≡ Memory };

    fn from(_: Memory) -> Stop {
        Stop::Memory
    }
}

/// A declaration of the outermost scope, and the place of its name. It is nothing where it passes a limit.
pub type Outermost = (u32, Kept<Decl>);

/// A net whose network is not read yet: what its declaration began with.
pub struct OpenNet {
    pub name: Ident,
    pub sig: Option<Sig>,
    pub decls: Kept<Seq<Decl>>,
}

/// Written out, so that whoever gives a net up calls this, and is not proved over each part of it.
impl Drop for OpenNet {
    fn drop(self) {
        let OpenNet {
            name: _name,
            sig: _sig,
            decls: _decls,
        } = self;
    }
}

/// The finished declarations: those of the outermost scope, and those of each open net.
pub struct Around {
    pub done: Seq<Outermost>,
    pub nets: Stack<OpenNet>,
}

/// Written out, so that whoever gives it up calls this, and is not proved over each part of it.
impl Drop for Around {
    fn drop(self) {
        let Around {
            done: _done,
            nets: _nets,
        } = self;
    }
}

/// The first word of a declaration.
#[derive(Clone, Copy)]
pub enum Word {
    Box,
    Net,
    Type,
    TypeSig,
}

/// What comes next.
pub enum Mode {
    /// A declaration, or the end of the scope.
    Want,
    /// The name of what is declared.
    Named { word: Word },
    InBox { at: u32, rest: BoxDeclParser },
    /// The `=` of a type.
    TypeAssign { name: Ident },
    InType { name: Ident, types: TypeParser },
    /// The `=` of a type signature.
    SigAssign { name: Ident },
    InSig { name: Ident, sig: SigParser },
    /// What stands after the name of a net.
    NetName { name: Ident },
    InNetSig { name: Ident, sig: SigParser },
    /// The inner declarations of a net, or its network.
    AfterSig { name: Ident, sig: Option<Sig> },
    /// The network of a net.
    Connect { net: OpenNet },
    InNetwork { net: OpenNet, network: NetParser },
}

/// Written out, so that whoever gives a mode up calls this, and is not proved over each form of it.
impl Drop for Mode {
    fn drop(self) {
        match self {
            Mode::Want => (),
            Mode::Named { word: _word } => (),
            Mode::InBox {
                at: _at,
                rest: _rest,
            } => (),
            Mode::TypeAssign { name: _name } => (),
            Mode::InType {
                name: _name,
                types: _types,
            } => (),
            Mode::SigAssign { name: _name } => (),
            Mode::InSig {
                name: _name,
                sig: _sig,
            } => (),
            Mode::NetName { name: _name } => (),
            Mode::InNetSig {
                name: _name,
                sig: _sig,
            } => (),
            Mode::AfterSig {
                name: _name,
                sig: _sig,
            } => (),
            Mode::Connect { net: _net } => (),
            Mode::InNetwork {
                net: _net,
                network: _network,
            } => (),
        }
    }
}

impl Mode {
    /// Takes the next token.
    fn step(self, alloc: Global, around: Around, token: Terminal) -> Result<Parser, Stop>
        ensures { StepsIn around self token result }
    {
        match self {
            Mode::Want => want(around, token),
            Mode::Named { word } => named(alloc, around, word, token),
            Mode::InBox { at, rest } => box_decl::in_box(alloc, around, at, rest, token),
            Mode::TypeAssign { name } => type_decl::type_assign(alloc, around, name, token),
            Mode::InType { name, types } => {
                type_decl::in_type(alloc, around, name, types, token)
            }
            Mode::SigAssign { name } => type_decl::sig_assign(alloc, around, name, token),
            Mode::InSig { name, sig } => type_decl::in_sig(alloc, around, name, sig, token),
            Mode::NetName { name } => net_decl::net_name(alloc, around, name, token),
            Mode::InNetSig { name, sig } => net_decl::in_net_sig(alloc, around, name, sig, token),
            Mode::AfterSig { name, sig } => net_decl::after_sig(alloc, around, name, sig, token),
            Mode::Connect { net } => net_decl::connect(alloc, around, net, token),
            Mode::InNetwork { net, network } => {
                net_decl::in_network(alloc, around, net, network, token)
            }
        }
    }
}

/// A source that is being read.
pub struct Parser {
    pub around: Around,
    pub mode: Mode,
}

/// Written out, so that whoever gives a parser up calls this, and is not proved over each part of it.
impl Drop for Parser {
    fn drop(self) {
        let Parser {
            around: _around,
            mode: _mode,
        } = self;
    }
}

impl OpenNet {
    /// The net with one more inner declaration.
    fn with_inner(self, decl: Kept<Decl>) -> Result<OpenNet, Memory>
        ensures { IfOk result (λ n. n ≡ with_inner self decl) }
    {
        let OpenNet { name, sig, decls } = self;
        let decls = measure::append(decls, decl)?;
        Ok(OpenNet { name, sig, decls })
    }

    /// The declaration, once the network is read.
    pub fn with_connect(self, network: Kept<NetExpr>) -> Kept<Decl>
        ensures { result ≡ with_connect kept self.name self.sig self.decls network }
    {
        let OpenNet { name, sig, decls } = self;
        let both = join(decls, network)?;
        let ((decls, connect), measure) = both.into_parts();
        raise(Some(measure.with(Decl::NetDecl(NetDecl {
            name,
            sig,
            decls,
            connect,
        }))))
    }
}

impl Around {
    /// The declarations, where no net is open.
    fn end(self) -> Option<Seq<Outermost>>
        ensures { EndsIn self some_mode.Want result }
    {
        let Around { done, nets } = self;
        let mut nets = nets;
        if let Some(_) = nets.pop() {
            return None;
        }
        Some(done)
    }

    /// The declaration is finished: it joins those of its scope. `at` is the place of its name.
    pub fn finish(self, alloc: Global, at: u32, decl: Kept<Decl>) -> Result<Parser, Stop>
        ensures { LeadsTo (after_declaration self at decl) result }
    {
        let Around { done, nets } = self;
        let mut nets = nets;
        match nets.pop() {
            None => finish_outermost(alloc, done, at, decl),
            Some(net) => finish_inner(done, nets, net, decl),
        }
    }

    /// Takes the brace that opens a net's inner declarations.
    pub fn inner(self, net: OpenNet) -> Result<Parser, Stop>
        ensures { LeadsTo (with_inner_scope self net) result }
    {
        let Around { done, nets } = self;
        let mut nets = nets;
        nets.push(net)?;
        Ok(Parser {
            around: Around { done, nets },
            mode: Mode::Want,
        })
    }

    /// Takes the brace that ends a net's inner declarations.
    fn close(self, symbol: Symbol, at: u32) -> Result<Parser, Stop>
        ensures { StepsIn self some_mode.Want (some_token.Symbol symbol at) result }
    {
        if symbol != Symbol::CloseBrace {
            return Err(Stop::Refused);
        }
        let Around { done, nets } = self;
        let mut nets = nets;
        let Some(net) = nets.pop() else {
            return Err(Stop::Refused);
        };
        Ok(Parser {
            around: Around { done, nets },
            mode: Mode::Connect { net },
        })
    }
}

fn finish_outermost(
    alloc: Global,
    done: Seq<Outermost>,
    at: u32,
    decl: Kept<Decl>,
) -> Result<Parser, Stop>
    ensures { LeadsTo (wanting (append done (at, decl)) []) result }
{
    let done = appended(done, (at, decl))?;
    Ok(Parser {
        around: Around {
            done,
            nets: Stack::new(alloc),
        },
        mode: Mode::Want,
    })
}

/// Appends an element to any list: where the type of the elements is known, what is given up for want of memory would be
/// proved over each part of it.
fn appended<T: Drop>(list: Seq<T>, element: T) -> Result<Seq<T>, Memory>
    ensures { IfOk result (λ r. r ≡ append list element) }
{
    let mut list = list;
    sn_stack::append(&mut list, element)?;
    Ok(list)
}

fn finish_inner(
    done: Seq<Outermost>,
    nets: Stack<OpenNet>,
    net: OpenNet,
    decl: Kept<Decl>,
) -> Result<Parser, Stop>
    ensures { LeadsTo (wanting done (with_inner net decl ∷ nets)) result }
{
    let net = net.with_inner(decl)?;
    let mut nets = nets;
    nets.push(net)?;
    Ok(Parser {
        around: Around { done, nets },
        mode: Mode::Want,
    })
}

/// Takes the token where a declaration or the end of the scope comes next.
fn want(around: Around, token: Terminal) -> Result<Parser, Stop>
    ensures { StepsIn around some_mode.Want token result }
{
    match token {
        Terminal::Keyword { keyword, at } => begin(around, keyword, at),
        Terminal::Symbol { symbol, at } => around.close(symbol, at),
        _ => Err(Stop::Refused),
    }
}

/// Takes the first word of a declaration.
fn begin(around: Around, keyword: Keyword, at: u32) -> Result<Parser, Stop>
    ensures { StepsIn around some_mode.Want (some_token.Keyword keyword at) result }
{
    match keyword {
        Keyword::Box => Ok(naming(around, Word::Box)),
        Keyword::Net => Ok(naming(around, Word::Net)),
        Keyword::Type => Ok(naming(around, Word::Type)),
        Keyword::TypeSig => Ok(naming(around, Word::TypeSig)),
        _ => Err(Stop::Refused),
    }
}

fn naming(around: Around, word: Word) -> Parser
    ensures { result ≡ record { around = around; mode = some_mode.Named word } }
{
    Parser {
        around,
        mode: Mode::Named { word },
    }
}

/// Takes the name of what is declared.
fn named(alloc: Global, around: Around, word: Word, token: Terminal) -> Result<Parser, Stop>
    ensures { StepsIn around (some_mode.Named word) token result }
{
    let Some(name) = into_name(token) else {
        return Err(Stop::Refused);
    };
    Ok(declaring(alloc, around, word, name))
}

fn declaring(alloc: Global, around: Around, word: Word, name: Ident) -> Parser
    ensures { (w : List SomeTerminal) (all : Decls) → Named around.done around.nets word (some_token.Name name ∷ w) all ↔ Completes result w all }
{
    match word {
        Word::Box => Parser {
            around,
            mode: Mode::InBox {
                at: name.at,
                rest: BoxDeclParser::start(alloc, name),
            },
        },
        Word::Net => Parser {
            around,
            mode: Mode::NetName { name },
        },
        Word::Type => Parser {
            around,
            mode: Mode::TypeAssign { name },
        },
        Word::TypeSig => Parser {
            around,
            mode: Mode::SigAssign { name },
        },
    }
}

impl Parser {
    pub fn start(alloc: Global) -> Parser
        ensures { (w : List SomeTerminal) (all : Decls) → Declarations kept [] w all ↔ Completes result w all }
    {
        Parser {
            around: Around {
                done: Seq::new(alloc),
                nets: Stack::new(alloc),
            },
            mode: Mode::Want,
        }
    }

    /// Takes the next token.
    pub fn step(self, alloc: Global, token: Terminal) -> Result<Parser, Stop>
        ensures { Steps self token result }
    {
        let Parser { around, mode } = self;
        mode.step(alloc, around, token)
    }

    /// The declarations, where the tokens may end here.
    pub fn end(self) -> Option<Seq<Outermost>>
        ensures { Ends self result }
    {
        let Parser { around, mode } = self;
        match &mode {
            Mode::Want => around.end(),
            _ => None,
        }
    }
}
