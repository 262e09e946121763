ghost use Rattle.std.specs.Prelude.{◌≡◌, ◌↔◌, IfOk, IsTrue};
ghost use Rattle.sn_ast.specs.Kept.{kept};
ghost use Rattle.sn_ast.specs.Networks.{GoesOn, branched, chained, choice_with, serial_of};
ghost use Rattle.sn_net_parser.specs.Levels.{after_bar, after_dots, finished, fresh};

use crate::node;
use sn_ast::measure::{append, no_row};
use sn_ast::{Kept, NetExpr, Seq};
use sn_list::Memory;
use std::alloc::Global;

type Row = Kept<Seq<NetExpr>>;

/// An open level of parentheses: the finished parts of its serial list and the finished branches of its choice, each
/// with the place of the first operator.
pub struct Level {
    pub chain: Option<(u32, Row)>,
    pub choice: Option<(bool, u32, Row)>,
}

/// Written out, so that whoever gives a level up calls this, and is not proved over each form of it.
impl Drop for Level {
    fn drop(self) {
        let Level {
            chain: _chain,
            choice: _choice,
        } = self;
    }
}

fn serial_end(chain: Option<(u32, Row)>, part: Kept<NetExpr>) -> Result<Kept<NetExpr>, Memory>
    ensures { IfOk result (λ r. r ≡ serial_of kept chain part) }
{
    match chain {
        None => Ok(part),
        Some((at, row)) => {
            let row = append(row, part)?;
            Ok(node::serial(at, row))
        }
    }
}

fn choice_end(
    choice: Option<(bool, u32, Row)>,
    branch: Kept<NetExpr>,
) -> Result<Kept<NetExpr>, Memory>
    ensures { IfOk result (λ r. r ≡ choice_with kept choice branch) }
{
    match choice {
        None => Ok(branch),
        Some((det, at, row)) => {
            let row = append(row, branch)?;
            Ok(node::choice(det, at, row))
        }
    }
}

fn with_part(
    alloc: Global,
    chain: Option<(u32, Row)>,
    now: u32,
    part: Kept<NetExpr>,
) -> Result<Option<(u32, Row)>, Memory>
    ensures { IfOk result (λ r. r ≡ chained kept chain now part) }
{
    match chain {
        None => {
            let row = append(no_row(alloc), part)?;
            Ok(Some((now, row)))
        }
        Some((at, row)) => {
            let row = append(row, part)?;
            Ok(Some((at, row)))
        }
    }
}

fn with_branch(
    alloc: Global,
    choice: Option<(bool, u32, Row)>,
    det: bool,
    now: u32,
    branch: Kept<NetExpr>,
) -> Result<Option<(bool, u32, Row)>, Memory>
    ensures { IfOk result (λ r. r ≡ branched kept choice det now branch) }
{
    match choice {
        None => {
            let row = append(no_row(alloc), branch)?;
            Ok(Some((det, now, row)))
        }
        Some((first_det, at, row)) => {
            let row = append(row, branch)?;
            Ok(Some((first_det, at, row)))
        }
    }
}

impl Level {
    pub fn new() -> Level
        ensures { result ≡ fresh }
    {
        Level {
            chain: None,
            choice: None,
        }
    }

    /// Whether a branch may follow: a choice has one operator.
    pub fn goes_on(&self, det: bool) -> bool
        ensures { IsTrue result ↔ GoesOn self.now.choice det }
    {
        match &self.choice {
            None => true,
            Some((first_det, _, _)) => *first_det == det,
        }
    }

    /// The network of the level, which ends with the part.
    pub fn finish(self, part: Kept<NetExpr>) -> Result<Kept<NetExpr>, Memory>
        ensures { IfOk result (λ r. r ≡ finished self part) }
    {
        let Level { chain, choice } = self;
        let branch = serial_end(chain, part)?;
        choice_end(choice, branch)
    }

    pub fn after_dots(self, alloc: Global, at: u32, part: Kept<NetExpr>) -> Result<Level, Memory>
        ensures { IfOk result (λ r. r ≡ after_dots self at part) }
    {
        let Level { chain, choice } = self;
        let chain = with_part(alloc, chain, at, part)?;
        Ok(Level { chain, choice })
    }

    pub fn after_bar(
        self,
        alloc: Global,
        det: bool,
        at: u32,
        part: Kept<NetExpr>,
    ) -> Result<Level, Memory>
        ensures { IfOk result (λ r. r ≡ after_bar self det at part) }
    {
        let Level { chain, choice } = self;
        let branch = serial_end(chain, part)?;
        let choice = with_branch(alloc, choice, det, at, branch)?;
        Ok(Level {
            chain: None,
            choice,
        })
    }
}
