ghost use Rattle.sn_parser.specs.Residual.{AfterNetSig, EndSteps, StepsIn};
ghost use Rattle.sn_parser.specs.declared.machine.Mode.TheVariants as some_mode;

use crate::machine::{Around, Mode, OpenNet, Parser, Stop};
use crate::tokens::keyword_at;
use sn_ast::measure::no_row;
use sn_ast::{Ident, Keyword, Sig, Symbol, Terminal};
use sn_net_parser::{NetParser, NetStop};
use sn_type_parser::{SigParser, SigStop};
use std::alloc::Global;

/// Takes the token after the name of a net.
pub fn net_name(alloc: Global, around: Around, name: Ident, token: Terminal) -> Result<Parser, Stop>
    ensures { StepsIn around (some_mode.NetName name) token result }
{
    if let Some(_) = token.symbol_at(Symbol::OpenParen) {
        return Ok(Parser {
            around,
            mode: Mode::InNetSig {
                name,
                sig: SigParser::start(alloc),
            },
        });
    }
    after_sig(alloc, around, name, None, token)
}

/// Takes a token of a net's signature.
pub fn in_net_sig(
    alloc: Global,
    around: Around,
    name: Ident,
    sig: SigParser,
    token: Terminal,
) -> Result<Parser, Stop>
    ensures { StepsIn around (some_mode.InNetSig name sig) token result }
{
    match sig.step(alloc, token) {
        Ok(sig) => Ok(Parser {
            around,
            mode: Mode::InNetSig { name, sig },
        }),
        Err(SigStop::Memory) => Err(Stop::Memory),
        Err(SigStop::Refused) => Err(Stop::Refused),
        Err(SigStop::Ended { sig, symbol, .. }) => net_sig_ended(around, name, sig, symbol),
    }
}

/// Takes the symbol after a net's signature, which must close its parentheses.
fn net_sig_ended(around: Around, name: Ident, sig: Sig, symbol: Symbol) -> Result<Parser, Stop>
    ensures { EndSteps (AfterNetSig around.done around.nets name sig) symbol result }
{
    if symbol != Symbol::CloseParen {
        return Err(Stop::Refused);
    }
    Ok(Parser {
        around,
        mode: Mode::AfterSig {
            name,
            sig: Some(sig),
        },
    })
}

/// Takes the token where the inner declarations of a net or its network come next.
pub fn after_sig(
    alloc: Global,
    around: Around,
    name: Ident,
    sig: Option<Sig>,
    token: Terminal,
) -> Result<Parser, Stop>
    ensures { StepsIn around (some_mode.AfterSig name sig) token result }
{
    let net = OpenNet {
        name,
        sig,
        decls: no_row(alloc),
    };
    if let Some(_) = token.symbol_at(Symbol::OpenBrace) {
        return around.inner(net);
    }
    connect(alloc, around, net, token)
}

/// Takes the `connect` of a net.
pub fn connect(alloc: Global, around: Around, net: OpenNet, token: Terminal) -> Result<Parser, Stop>
    ensures { StepsIn around (some_mode.Connect net) token result }
{
    let Some(_) = keyword_at(token, Keyword::Connect) else {
        return Err(Stop::Refused);
    };
    Ok(Parser {
        around,
        mode: Mode::InNetwork {
            net,
            network: NetParser::start(alloc),
        },
    })
}

/// Takes a token of a net's network, or the semicolon after it.
pub fn in_network(
    alloc: Global,
    around: Around,
    net: OpenNet,
    network: NetParser,
    token: Terminal,
) -> Result<Parser, Stop>
    ensures { StepsIn around (some_mode.InNetwork net network) token result }
{
    match network.step(alloc, token) {
        Ok(network) => Ok(Parser {
            around,
            mode: Mode::InNetwork { net, network },
        }),
        Err(NetStop::Memory) => Err(Stop::Memory),
        Err(NetStop::Refused) => Err(Stop::Refused),
        Err(NetStop::Ended { network, .. }) => {
            let at = net.name.at;
            around.finish(alloc, at, net.with_connect(network))
        }
    }
}
