//! From a program to its boxes and its claims.
ghost use Rattle.std.specs.Prelude.{◌≡◌, ◌⊎◌, ◌<◌, ◌≤◌, ℕ, List, IfOk, IfErr, IfSome, [], Ok, Err, Some, None, length};
ghost use Rattle.sn_scope.specs.Claims.{IsClaim};
ghost use Rattle.sn_scope.specs.Resolution.{fault_at, most_names, parts_of, resolution, resolved, with_main};
ghost use Rattle.sn_scope.specs.Trees.{claims_within, most_nodes, signature_at};
ghost use Rattle.sn_label_scope.specs.declared.fault.ScopeFault.TheVariants as cause;

use crate::declarations::{Declarations, Pending};
use crate::numbering::enter_decls;
use crate::resolved::{Parts, Resolved};
use crate::trees::tree;
use sn_ast::Program;
use sn_label_scope::{Reason, Refusal, ScopeFault};
use sn_list::{Held, Memory, Seq};
use sn_names::{NameTable, Names};
use sn_net::{Boxes, Claim, copy_sets};
use sn_record::LabelSet;
use std::alloc::Global;
use std::mem::replace;

/// How many nodes one below another a tree may have.
const MOST_LEVELS: u32 = 256;

/// How many nodes all trees may have together.
const MOST_NODES: usize = 65_536;

fn fault_of(refusal: Refusal) -> ScopeFault
    ensures { result ≡ fault_at refusal.reason refusal.at }
{
    match refusal.reason {
        Reason::Unknown => ScopeFault::Unknown(refusal.at),
        Reason::Twice => ScopeFault::Twice(refusal.at),
        Reason::Arity => ScopeFault::Arity(refusal.at),
        Reason::GuardTag => ScopeFault::GuardTag(refusal.at),
    }
}

/// Copies of the types of a signature by its number, and no variants where there is none.
fn types_of(
    alloc: Global,
    declarations: &Declarations,
    number: usize,
) -> Result<(Seq<LabelSet>, Seq<LabelSet>), Memory>
    ensures input { IfOk result (λ types. types.0 ≡ (signature_at declarations.now number).input) }
    ensures output { IfOk result (λ types. types.1 ≡ (signature_at declarations.now number).output) }
{
    if number >= declarations.signatures.len() {
        return Ok((Seq::new(alloc), Seq::new(alloc)));
    }
    let signature = declarations.signatures.at(number);
    let input = copy_sets(alloc, signature.input.as_slice())?;
    let output = copy_sets(alloc, signature.output.as_slice())?;
    Ok((input, output))
}

/// The claim with its tree, or nothing where that is too large. Room is taken for each node.
fn claim(
    alloc: Global,
    declarations: &Declarations,
    pending: Pending,
    room: &mut usize,
) -> Result<Option<Claim>, Memory>
    ensures { IfOk result (IsClaim declarations.now pending room.old room.new) }
{
    let boxes = &declarations.boxes;
    let nets = declarations.nets.as_slice();
    if pending.net >= nets.len() {
        return Ok(None);
    }
    match tree(alloc, boxes, nets, &nets[pending.net], MOST_LEVELS, room)? {
        Some(faced) => {
            let (input, output) = types_of(alloc, declarations, pending.signature)?;
            Ok(Some(Claim {
                place: pending.place,
                net: faced.into_inner().into_net(),
                input,
                output,
            }))
        }
        None => Ok(None),
    }
}

/// The claims with their trees, or the place of the first whose tree is too large.
fn claims(alloc: Global, declarations: &Declarations) -> Result<Result<Seq<Claim>, u32>, Memory>
    ensures { IfOk result (λ claims. claims_within declarations.now most_nodes declarations.now.claims ≡ claims) }
{
    let mut made = Seq::new(alloc);
    let mut room = MOST_NODES;
    for pending in declarations.claims.as_slice() {
        let Some(claim) = claim(alloc, declarations, *pending, &mut room)? else {
            return Ok(Err(pending.place));
        };
        sn_stack::append(&mut made, claim)?;
    }
    Ok(Ok(made))
}

/// The place of the program's claim among the claims.
fn main_of(declarations: &Declarations) -> Result<u32, ScopeFault>
    ensures ok { IfOk result (λ main. declarations.now.main ≡ Some main) }
    ensures refused { IfErr result (λ fault. (fault ≡ cause.Memory) ⊎ ((declarations.now.main ≡ None) × (fault ≡ cause.NoMain))) }
{
    let Some(main) = declarations.main else {
        return Err(ScopeFault::NoMain);
    };
    // So many claims do not fit into memory.
    let Ok(main) = u32::try_from(main) else {
        return Err(ScopeFault::Memory);
    };
    Ok(main)
}

/// The claims with their trees, where the program's is one of them.
fn claims_with(
    alloc: Global,
    declarations: &Declarations,
    main: u32,
) -> Result<Seq<Claim>, ScopeFault>
    ensures ok { IfOk result (λ claims. (claims_within declarations.now most_nodes declarations.now.claims ≡ Ok claims) × (main < length claims)) }
    ensures refused { IfErr result (λ fault. (fault ≡ cause.Memory) ⊎ ((names : List (List ℕ)) → resolved names declarations.now.boxes main (claims_within declarations.now most_nodes declarations.now.claims) ≡ Err fault)) }
{
    match claims(alloc, declarations)? {
        Ok(claims) if (main as usize) < claims.len() => Ok(claims),
        // A claim's place among the claims is noted as the claim is, so there is one.
        Ok(_) => Err(ScopeFault::NoMain),
        Err(place) => Err(ScopeFault::TooLarge(place)),
    }
}

/// The names of the labels, which may be so many and no more.
fn labels(names: Held<NameTable>) -> Result<Held<Names>, ScopeFault>
    ensures ok { IfOk result (λ labels. (labels.value ≡ names.value) × (length names.value ≤ most_names)) }
    ensures refused { IfErr result (λ fault. (fault ≡ cause.TooManyNames) × (most_names < length names.value)) }
{
    match Names::from_table(names.into_inner()) {
        Ok(value) => Ok(Held { value }),
        Err(_) => Err(ScopeFault::TooManyNames),
    }
}

/// What is left to decide where nothing is refused at a place. Takes the boxes out of the declarations.
fn finish(
    alloc: Global,
    names: Held<NameTable>,
    declarations: &mut Declarations,
) -> Result<Parts, ScopeFault>
    ensures ok { IfOk result (λ parts. with_main names.value declarations.old declarations.old.main ≡ Ok parts) }
    ensures refused { IfErr result (λ fault. (fault ≡ cause.Memory) ⊎ (with_main names.value declarations.old declarations.old.main ≡ Err fault)) }
{
    let main = main_of(declarations)?;
    let names = labels(names)?;
    let claims = claims_with(alloc, declarations, main)?;
    let boxes = replace(&mut declarations.boxes, Seq::new(alloc));
    Ok(Parts {
        names: names.into_inner(),
        boxes,
        claims,
        main,
    })
}

/// Resolves the names of a program: labels are numbered, each name of a net in a network is replaced by a copy of that
/// net's tree and each name of a box by a call of the box, and each net with a signature is a claim.
///
/// The refusal at the least place comes, and at one place the first of Unknown, Twice, Arity and GuardTag; where there
/// is none, NoMain, then TooManyNames, then TooLarge. Trees are made for claims alone.
pub fn resolve(alloc: Global, program: &Program) -> Result<Resolved, ScopeFault>
    ensures ok { IfOk result (λ resolved. resolution program.now ≡ Ok (parts_of resolved)) }
    ensures refused { IfErr result (λ fault. (fault ≡ cause.Memory) ⊎ (resolution program.now ≡ Err fault)) }
{
    let mut names = Held {
        value: NameTable::new(alloc),
    };
    enter_decls(&mut names.value, program.decls.as_slice())?;
    let mut declarations = Declarations::new(alloc);
    declarations.declarations(alloc, &names.value, program.decls.as_slice())?;
    match declarations.refusals.least() {
        Some(refusal) => Err(fault_of(refusal)),
        None => {
            let parts = finish(alloc, names, &mut declarations)?;
            Ok(Resolved { parts })
        }
    }
}
