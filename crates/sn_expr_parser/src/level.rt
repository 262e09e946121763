//! What stands before an operand, in either expression language.
ghost use Rattle.std.specs.Prelude.{◌≡◌, IfOk, Ok, Some};
ghost use Rattle.sn_ast.specs.Kept.{kept, pair};
ghost use Rattle.sn_ast.specs.Operators.{Operations, with_sign, with_operator, with_and, with_or};
ghost use Rattle.sn_expr_parser.specs.Levels.{fresh, signed, operated, conjoined, disjoined, sum_of, or_in, with_next_sign, after_product, after_sum, after_comparison, after_and, after_or, after};

use sn_ast::measure::{boxed, join, raise};
use sn_ast::{Boxed, Infix, Kept, Operator, Sign};
use sn_list::Memory;
use sn_stack::Stack;
use std::alloc::Global;

/// An expression that signs and operators make greater ones of.
pub trait Expression: Sized + Drop {
    ghost operations: { Operations Self };

    fn sign(sign: Sign, at: u32, operand: Boxed<Self>) -> Self
        ensures { result ≡ operations.sign sign at operand };

    fn operator(operator: Operator, at: u32, left: Boxed<Self>, right: Boxed<Self>) -> Self
        ensures { result ≡ operations.op operator at left right };

    fn and(at: u32, left: Boxed<Self>, right: Boxed<Self>) -> Self
        ensures { result ≡ operations.and at left right };

    fn or(at: u32, left: Boxed<Self>, right: Boxed<Self>) -> Self
        ensures { result ≡ operations.or at left right };
}

/// A left side that waits for its right one, on the heap since a node will hold it so.
pub type Left<E> = Kept<Boxed<E>>;

/// What waits for its right side, with its operator and the operator's place.
pub type Waiting<E> = Option<(Left<E>, Operator, u32)>;

/// What stands before an operand: a finished left side for each kind of operator, from the loosest to the tightest,
/// and the signs, the last one first.
pub struct Level<E> {
    pub or: Option<(Left<E>, u32)>,
    pub and: Option<(Left<E>, u32)>,
    pub comparison: Waiting<E>,
    pub sum: Waiting<E>,
    pub product: Waiting<E>,
    pub signs: Stack<(Sign, u32)>,
}

/// Written out, so that a function that gives a level up calls this, and is not proved over each part of it.
impl<E: Drop> Drop for Level<E> {
    fn drop(self) {
        let Level {
            or: _or,
            and: _and,
            comparison: _comparison,
            sum: _sum,
            product: _product,
            signs: _signs,
        } = self;
    }
}

fn with_sign<E: Expression>(
    alloc: Global,
    sign: Sign,
    at: u32,
    part: Kept<E>,
) -> Result<Kept<E>, Memory>
    ensures { IfOk result (λ r. r ≡ with_sign kept E.operations sign at part) }
{
    let Some(part) = boxed(alloc, part)? else {
        return Ok(None);
    };
    let (part, measure) = part.into_parts();
    Ok(raise(Some(measure.with(E::sign(sign, at, part)))))
}

/// The operand with the signs.
fn with_signs<E: Expression>(
    alloc: Global,
    signs: Stack<(Sign, u32)>,
    part: Kept<E>,
) -> Result<Kept<E>, Memory>
    ensures { IfOk result (λ r. r ≡ signed E.operations signs part) }
{
    let mut signs = signs;
    let mut part = part;
    while let Some((sign, at)) = signs.pop() {
        part = with_sign(alloc, sign, at, part)?;
    }
    Ok(part)
}

/// What was completed, as it waits for its right side. Takes the answer as it came, so that its caller, which has a level to give
/// up, has one exit.
fn on_heap<E: Drop>(alloc: Global, part: Result<Kept<E>, Memory>) -> Result<Left<E>, Memory>
    ensures { IfOk result (λ r. part ≡ Ok r) }
{
    boxed(alloc, part?)
}

/// Two parts side by side, each on the heap.
pub fn both_boxed<E: Drop>(
    alloc: Global,
    left: Kept<E>,
    right: Kept<E>,
) -> Result<Kept<(Boxed<E>, Boxed<E>)>, Memory>
    ensures { IfOk result (λ r. r ≡ kept.join pair left right) }
{
    let left = boxed(alloc, left)?;
    let right = boxed(alloc, right)?;
    Ok(join(left, right))
}

/// Three parts side by side, each on the heap. Here a part that is given up is any `E`, where a caller would be proved over
/// each form that an expression has.
pub fn all_boxed<E: Drop>(
    alloc: Global,
    first: Kept<E>,
    second: Kept<E>,
    third: Kept<E>,
) -> Result<Kept<((Boxed<E>, Boxed<E>), Boxed<E>)>, Memory>
    ensures { IfOk result (λ r. r ≡ kept.join pair (kept.join pair first second) third) }
{
    let third = boxed(alloc, third)?;
    let both = both_boxed(alloc, first, second)?;
    Ok(join(both, third))
}

fn operated<E: Expression>(
    alloc: Global,
    left: Waiting<E>,
    right: Kept<E>,
) -> Result<Kept<E>, Memory>
    ensures { IfOk result (λ r. r ≡ operated E.operations left right) }
{
    let Some((left, operator, at)) = left else {
        return Ok(right);
    };
    let right = boxed(alloc, right)?;
    let Some(both) = join(left, right) else {
        return Ok(None);
    };
    let ((left, right), measure) = both.into_parts();
    Ok(raise(Some(measure.with(E::operator(operator, at, left, right)))))
}

fn conjoined<E: Expression>(
    alloc: Global,
    left: Option<(Left<E>, u32)>,
    right: Kept<E>,
) -> Result<Kept<E>, Memory>
    ensures { IfOk result (λ r. r ≡ conjoined E.operations left right) }
{
    let Some((left, at)) = left else {
        return Ok(right);
    };
    let right = boxed(alloc, right)?;
    let Some(both) = join(left, right) else {
        return Ok(None);
    };
    let ((left, right), measure) = both.into_parts();
    Ok(raise(Some(measure.with(E::and(at, left, right)))))
}

fn disjoined<E: Expression>(
    alloc: Global,
    left: Option<(Left<E>, u32)>,
    right: Kept<E>,
) -> Result<Kept<E>, Memory>
    ensures { IfOk result (λ r. r ≡ disjoined E.operations left right) }
{
    let Some((left, at)) = left else {
        return Ok(right);
    };
    let right = boxed(alloc, right)?;
    let Some(both) = join(left, right) else {
        return Ok(None);
    };
    let ((left, right), measure) = both.into_parts();
    Ok(raise(Some(measure.with(E::or(at, left, right)))))
}

impl<E: Expression> Level<E> {
    /// The level where an expression begins.
    pub fn new(alloc: Global) -> Level<E>
        ensures { result ≡ fresh }
    {
        Level {
            or: None,
            and: None,
            comparison: None,
            sum: None,
            product: None,
            signs: Stack::new(alloc),
        }
    }

    /// The level after one more sign.
    pub fn with_next_sign(self, sign: Sign, at: u32) -> Result<Level<E>, Memory>
        ensures { IfOk result (λ l. l ≡ with_next_sign self sign at) }
    {
        let mut level = self;
        level.signs.push((sign, at))?;
        Ok(level)
    }

    /// The level after the operand `part` and an operator. Nothing where the operator may not follow, since
    /// comparisons do not chain.
    pub fn after(
        self,
        alloc: Global,
        between: Infix,
        at: u32,
        part: Kept<E>,
    ) -> Result<Option<Level<E>>, Memory>
        ensures { IfOk result (λ l. l ≡ after E.operations self between at part) }
    {
        match between {
            Infix::Product(operator) => self.after_product(alloc, operator, at, part),
            Infix::Sum(operator) => self.after_sum(alloc, operator, at, part),
            Infix::Comparison(operator) => self.after_comparison(alloc, operator, at, part),
            Infix::Conjunction => self.after_and(alloc, at, part),
            Infix::Disjunction => self.after_or(alloc, at, part),
        }
    }

    fn after_product(
        self,
        alloc: Global,
        operator: Operator,
        at: u32,
        part: Kept<E>,
    ) -> Result<Option<Level<E>>, Memory>
        ensures { IfOk result (λ l. l ≡ Some (after_product E.operations self operator at part)) }
    {
        let Level {
            or,
            and,
            comparison,
            sum,
            product,
            signs,
        } = self;
        let part = on_heap(alloc, product_of(alloc, product, signs, part))?;
        Ok(Some(Level {
            or,
            and,
            comparison,
            sum,
            product: Some((part, operator, at)),
            signs: Stack::new(alloc),
        }))
    }

    fn after_sum(
        self,
        alloc: Global,
        operator: Operator,
        at: u32,
        part: Kept<E>,
    ) -> Result<Option<Level<E>>, Memory>
        ensures { IfOk result (λ l. l ≡ Some (after_sum E.operations self operator at part)) }
    {
        let Level {
            or,
            and,
            comparison,
            sum,
            product,
            signs,
        } = self;
        let part = on_heap(alloc, sum_of(alloc, sum, product, signs, part))?;
        Ok(Some(Level {
            or,
            and,
            comparison,
            sum: Some((part, operator, at)),
            product: None,
            signs: Stack::new(alloc),
        }))
    }

    fn after_comparison(
        self,
        alloc: Global,
        operator: Operator,
        at: u32,
        part: Kept<E>,
    ) -> Result<Option<Level<E>>, Memory>
        ensures { IfOk result (λ l. l ≡ after_comparison E.operations self operator at part) }
    {
        if self.comparison.is_some() {
            return Ok(None);
        }
        let Level {
            or,
            and,
            comparison: _none,
            sum,
            product,
            signs,
        } = self;
        let part = on_heap(alloc, sum_of(alloc, sum, product, signs, part))?;
        Ok(Some(Level {
            or,
            and,
            comparison: Some((part, operator, at)),
            sum: None,
            product: None,
            signs: Stack::new(alloc),
        }))
    }

    fn after_and(self, alloc: Global, at: u32, part: Kept<E>) -> Result<Option<Level<E>>, Memory>
        ensures { IfOk result (λ l. l ≡ Some (after_and E.operations self at part)) }
    {
        let Level {
            or,
            and,
            comparison,
            sum,
            product,
            signs,
        } = self;
        let part = on_heap(
            alloc,
            conjunction_of(alloc, and, comparison, sum, product, signs, part),
        )?;
        Ok(Some(Level {
            or,
            and: Some((part, at)),
            comparison: None,
            sum: None,
            product: None,
            signs: Stack::new(alloc),
        }))
    }

    fn after_or(self, alloc: Global, at: u32, part: Kept<E>) -> Result<Option<Level<E>>, Memory>
        ensures { IfOk result (λ l. l ≡ Some (after_or E.operations self at part)) }
    {
        let part = on_heap(alloc, self.finished(alloc, part))?;
        Ok(Some(Level {
            or: Some((part, at)),
            and: None,
            comparison: None,
            sum: None,
            product: None,
            signs: Stack::new(alloc),
        }))
    }

    /// The disjunction that the operand `part` completes.
    pub fn finished(self, alloc: Global, part: Kept<E>) -> Result<Kept<E>, Memory>
        ensures { IfOk result (λ r. r ≡ or_in E.operations self part) }
    {
        let Level {
            or,
            and,
            comparison,
            sum,
            product,
            signs,
        } = self;
        let part = conjunction_of(alloc, and, comparison, sum, product, signs, part)?;
        disjoined(alloc, or, part)
    }
}

/// The sum that the operand `part` completes.
fn sum_of<E: Expression>(
    alloc: Global,
    sum: Waiting<E>,
    product: Waiting<E>,
    signs: Stack<(Sign, u32)>,
    part: Kept<E>,
) -> Result<Kept<E>, Memory>
    ensures { IfOk result (λ r. r ≡ sum_of E.operations sum product signs part) }
{
    let part = product_of(alloc, product, signs, part)?;
    operated(alloc, sum, part)
}

/// The product that the operand `part` completes.
fn product_of<E: Expression>(
    alloc: Global,
    product: Waiting<E>,
    signs: Stack<(Sign, u32)>,
    part: Kept<E>,
) -> Result<Kept<E>, Memory>
    ensures { IfOk result (λ r. r ≡ operated E.operations product (signed E.operations signs part)) }
{
    let part = with_signs(alloc, signs, part)?;
    operated(alloc, product, part)
}

/// The conjunction that the operand `part` completes.
fn conjunction_of<E: Expression>(
    alloc: Global,
    and: Option<(Left<E>, u32)>,
    comparison: Waiting<E>,
    sum: Waiting<E>,
    product: Waiting<E>,
    signs: Stack<(Sign, u32)>,
    part: Kept<E>,
) -> Result<Kept<E>, Memory>
    ensures { IfOk result (λ r. r ≡ conjoined E.operations and (operated E.operations comparison (sum_of E.operations sum product signs part))) }
{
    let part = sum_of(alloc, sum, product, signs, part)?;
    let part = operated(alloc, comparison, part)?;
    conjoined(alloc, and, part)
}
