ghost use Rattle.std.specs.Prelude.{◌≡◌, IfOk};
ghost use Rattle.sn_ast.specs.Kept.{kept, pair};
ghost use Rattle.sn_ast.specs.Rows.{no_parts, with_part};

use sn_list::{Boxed, Memory, Seq};
use std::alloc::Global;

const MOST_HEIGHT: u32 = 64;

const MOST_OPEN: u32 = 128;

/// A part of a source with what the limits are on: its height, and how many counted parentheses are open at once
/// within it at most.
pub struct Measured<T> {
    pub value: T,
    pub height: u32,
    pub open_at_once: u32,
}

impl<T> Measured<T> {
    /// The part, and its measure beside nothing.
    pub fn into_parts(self) -> (T, Measured<()>)
        ensures value { result.0 ≡ self.value }
        ensures height { result.1.height ≡ self.height }
        ensures open { result.1.open_at_once ≡ self.open_at_once }
    {
        let Measured {
            value,
            height,
            open_at_once,
        } = self;
        let measure = Measured {
            value: (),
            height,
            open_at_once,
        };
        (value, measure)
    }
}

impl Measured<()> {
    /// Something else with the same measure.
    pub fn with<T>(self, value: T) -> Measured<T>
        ensures { result ≡ record { value = value; height = self.height; open_at_once = self.open_at_once } }
    {
        Measured {
            value,
            height: self.height,
            open_at_once: self.open_at_once,
        }
    }
}

/// Written out, so that a function that gives a part up calls this, and is not proved over each form of the part.
impl<T: Drop> Drop for Measured<T> {
    fn drop(self) {
        let Measured {
            value: _value,
            height: _,
            open_at_once: _,
        } = self;
    }
}

/// What a parser keeps of a part: nothing once it is past a limit, so no tree is ever higher than 64.
pub type Kept<T> = Option<Measured<T>>;

/// A part without parts.
pub fn leaf<T>(value: T) -> Kept<T>
    ensures { result ≡ kept.leaf value }
{
    Some(Measured {
        value,
        height: 0,
        open_at_once: 0,
    })
}

/// Two parts side by side.
pub fn join<A: Drop, B: Drop>(left: Kept<A>, right: Kept<B>) -> Kept<(A, B)>
    ensures { result ≡ kept.join pair left right }
{
    let (left, one) = left?.into_parts();
    let (right, other) = right?.into_parts();
    Some(Measured {
        value: (left, right),
        height: one.height.max(other.height),
        open_at_once: one.open_at_once.max(other.open_at_once),
    })
}

/// A node over its parts, which is one higher.
pub fn raise<T: Drop>(part: Kept<T>) -> Kept<T>
    ensures { result ≡ kept.raise part }
{
    let part = part?;
    if part.height >= MOST_HEIGHT {
        return None;
    }
    let (value, measure) = part.into_parts();
    Some(Measured {
        value,
        height: measure.height + 1,
        open_at_once: measure.open_at_once,
    })
}

/// A part in parentheses that are counted.
pub fn parens<T: Drop>(part: Kept<T>) -> Kept<T>
    ensures { result ≡ kept.parens part }
{
    let part = part?;
    if part.open_at_once >= MOST_OPEN {
        return None;
    }
    let (value, measure) = part.into_parts();
    Some(Measured {
        value,
        height: measure.height,
        open_at_once: measure.open_at_once + 1,
    })
}

/// A part on the heap, so that a node can hold it.
pub fn boxed<T: Drop>(alloc: Global, part: Kept<T>) -> Result<Kept<Boxed<T>>, Memory>
    ensures { IfOk result (λ r. r ≡ part) }
{
    let Some(part) = part else {
        return Ok(None);
    };
    let (value, measure) = part.into_parts();
    let value = Boxed::new(alloc, value)?;
    Ok(Some(measure.with(value)))
}

/// No parts in a row.
pub fn no_row<T>(alloc: Global) -> Kept<Seq<T>>
    ensures { result ≡ no_parts kept }
{
    leaf(Seq::new(alloc))
}

/// One more part at the end of a row.
pub fn append<T: Drop>(row: Kept<Seq<T>>, part: Kept<T>) -> Result<Kept<Seq<T>>, Memory>
    ensures { IfOk result (λ r. r ≡ with_part kept row part) }
{
    let Some(both) = join(row, part) else {
        return Ok(None);
    };
    let ((mut all, last), measure) = both.into_parts();
    sn_stack::append(&mut all, last)?;
    Ok(Some(measure.with(all)))
}
