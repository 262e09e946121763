ghost use Rattle.std.specs.Prelude.{◌≡◌, ◌++◌, ◌∷◌, [], OnOk};
ghost use Rattle.sn_box_values.specs.Datum.{value_of, values_of};

use crate::frame::{Frame, Next, Purpose, Turn};
use sn_box_values::{
    Datum, Stop, built_in, combined, condition, list, negative, opposite, record_of, text, truth_of,
};
use sn_list::{Memory, Seq};
use sn_net::{BoxProgram, Expr};
use sn_record::{FaultKind, Record};
use sn_stack::{Stack, append};
use sn_tagexpr::truth;
use std::alloc::Global;
use std::mem::replace;

/// A box that is run: what waits for values, the variables that stand, and what was emitted.
#[derive(Drop)]
pub struct Machine<'a> {
    alloc: Global,
    program: &'a BoxProgram,
    frames: Stack<Frame<'a>>,
    variables: Vec<Datum>,
    fuel: u64,
    emitted: Seq<Record>,
}

/// Appends a value, which is dropped for want of memory.
fn push(values: &mut Vec<Datum>, value: Datum) -> Result<(), Memory>
    ensures { OnOk result (values_of values.new.items ≡ values_of values.old.items ++ value_of value ∷ []) }
{
    values.push(value)?;
    Ok(())
}

impl<'a> Machine<'a> {
    ghost use Rattle.std.specs.Prelude.{◌≡◌, ◌+◌, ◌<◌, ◌≤◌, ℕ, Bool, [], ◌∷◌, ◌++◌, not, slice_get, IfOk};
    ghost use Rattle.sn_record.specs.declared.item.FaultKind.TheVariants.{Kind};
    ghost use Rattle.sn_net.specs.BoxValues.{there_or};
    ghost use Rattle.sn_net.specs.BoxEvaluation.{called, emitting, evaluated, followed, last_value, node, unless_decided};
    ghost use Rattle.sn_net.specs.declared.expr.Expr.TheViews.{out-Expr};
    ghost use Rattle.sn_box_values.specs.Datum.{value_of, values_of};
    ghost use Rattle.sn_box_values.specs.Outcome.{GivesValue};
    ghost use Rattle.sn_boxrun.specs.Machine.{Ends, Goes, Steps, awaited, awaiting, gathered, outcome_from, progress_of, remaining, resumed, room, under, used, variables_below, variables_of, work};
    ghost use Rattle.sn_boxrun.specs.declared.frame.Turn.TheVariants as turn;

    /// A machine in which nothing waits and nothing was emitted.
    pub fn new(
        alloc: Global,
        program: &'a BoxProgram,
        variables: Seq<Datum>,
        fuel: u64,
    ) -> Machine<'a>
        ensures runs { result.program.now ≡ program.now }
        ensures waits { result.frames ≡ [] }
        ensures variables { variables_of result ≡ values_of variables }
        ensures progress { progress_of result ≡ record { fuel = fuel; emitted = [] } }
    {
        Machine {
            alloc,
            program,
            frames: Stack::new(alloc),
            variables: variables.into_vec(),
            fuel,
            emitted: Seq::new(alloc),
        }
    }

    /// Evaluates a part, for whose value a frame waits.
    fn await_part(&mut self, frame: Frame<'a>, part: &'a Expr) -> Result<Turn<'a>, Stop>
        ensures goes { Goes (awaiting self.old frame.entry (evaluated self.old.program.now part.now (variables_of self.old) (progress_of self.old))) self.new result }
        ensures near { IfOk result (λ turn. work self.new turn ≤ room self.old + 1) }
    {
        self.frames.push(frame)?;
        Ok(Turn::Evaluate(part))
    }

    /// The value of a variable.
    fn variable(&self, number: u32) -> Result<Datum, Stop>
        ensures { GivesValue (there_or Kind (slice_get (variables_of self.now) number)) result }
    {
        match self.variables.as_slice().get(number as usize) {
            Some(datum) => Ok(datum.share()?),
            None => Err(Stop::Faulted(FaultKind::Kind)),
        }
    }

    /// The parts of a sequence, after one with the value.
    fn in_turn(&mut self, parts: &'a [Expr], value: Datum) -> Result<Turn<'a>, Stop>
        ensures goes { Goes (under self.old (last_value (evaluated self.old.program.now) parts.now (variables_of self.old) (value_of value) (progress_of self.old))) self.new result }
        ensures near { IfOk result (λ turn. work self.new turn ≤ room self.old + 1) }
    {
        match parts.split_first() {
            None => Ok(Turn::Resume(value)),
            Some((part, rest)) if rest.is_empty() => Ok(Turn::Evaluate(part)),
            Some((part, rest)) => self.await_part(Frame::Sequence(rest), part),
        }
    }

    /// Begins a function, whose variables are its arguments.
    fn enter(&mut self, number: u32, arguments: Vec<Datum>) -> Result<Turn<'a>, Stop>
        ensures goes { Goes (under self.old (called (evaluated self.old.program.now) (slice_get self.old.program.now.funs number) (values_of arguments.items) (progress_of self.old))) self.new result }
        ensures near { IfOk result (λ turn. work self.new turn ≤ room self.old + 1) }
    {
        let program = self.program;
        let Some(function) = program.funs.as_slice().get(number as usize) else {
            return Err(Stop::Faulted(FaultKind::Kind));
        };
        let caller = replace(&mut self.variables, arguments);
        self.await_return(caller, &function.body)
    }

    /// Evaluates a function's body, after which the caller's variables stand. Where the caller ends right there, its own caller's
    /// do, so that calls which are the last thing that a function does leave no frames behind.
    fn await_return(&mut self, caller: Vec<Datum>, body: &'a Expr) -> Result<Turn<'a>, Stop>
        ensures goes { Goes (followed (evaluated self.old.program.now body.now (variables_of self.old) (progress_of self.old))
            (resumed self.old.program.now self.old.frames (values_of caller.items))) self.new result }
        ensures near { IfOk result (λ turn. work self.new turn ≤ room self.old + 1) }
    {
        match self.frames.pop() {
            None => {
                // What `pop` leaves of an empty stack, it doesn't say.
                let _empty = replace(&mut self.frames, Stack::new(self.alloc));
                self.await_part(Frame::Return(caller), body)
            }
            Some(Frame::Return(first)) => self.await_part(Frame::Return(first), body),
            Some(frame) => {
                self.frames.push(frame)?;
                self.await_part(Frame::Return(caller), body)
            }
        }
    }

    /// Emits a record of an output variant.
    fn emit(&mut self, number: u32, values: Vec<Datum>) -> Result<Turn<'a>, Stop>
        ensures goes { Goes (under self.old (emitting (slice_get self.old.program.now.outputs number) (values_of values.items) (progress_of self.old))) self.new result }
        ensures near { IfOk result (λ turn. work self.new turn ≤ room self.old + 1) }
    {
        let Some(labels) = self.program.outputs.as_slice().get(number as usize) else {
            return Err(Stop::Faulted(FaultKind::Kind));
        };
        let made = record_of(self.alloc, labels.as_slice(), Seq::from_vec(values))?;
        append(&mut self.emitted, made)?;
        Ok(Turn::Resume(Datum::int(0)))
    }

    /// What comes of the values of all parts.
    fn use_values(&mut self, purpose: Purpose, values: Vec<Datum>) -> Result<Turn<'a>, Stop>
        ensures goes { Goes (under self.old (used self.old.program.now purpose (values_of values.items) (progress_of self.old))) self.new result }
        ensures near { IfOk result (λ turn. work self.new turn ≤ room self.old + 1) }
    {
        match purpose {
            Purpose::List => Ok(Turn::Resume(list(self.alloc, Seq::from_vec(values))?)),
            Purpose::BuiltIn(function) => {
                let datum = built_in(self.alloc, function, Seq::from_vec(values))?;
                Ok(Turn::Resume(datum))
            }
            Purpose::Call(number) => self.enter(number, values),
            Purpose::Emit(number) => self.emit(number, values),
        }
    }

    /// The parts that are still to come, after those with the values.
    fn gather(
        &mut self,
        purpose: Purpose,
        parts: &'a [Expr],
        values: Vec<Datum>,
    ) -> Result<Turn<'a>, Stop>
        ensures goes { Goes (under self.old (gathered self.old.program.now purpose parts.now (variables_of self.old) (values_of values.items) (progress_of self.old))) self.new result }
        ensures near { IfOk result (λ turn. work self.new turn ≤ room self.old + 1) }
    {
        match parts.split_first() {
            None => self.use_values(purpose, values),
            Some((part, rest)) => self.await_part(Frame::Parts(purpose, rest, values), part),
        }
    }

    /// A part of `&&` or `||`, unless it isn't needed and the value is decided.
    fn unless_decided(
        &mut self,
        is_decided: bool,
        part: &'a Expr,
        value: bool,
    ) -> Result<Turn<'a>, Stop>
        ensures goes { Goes (under self.old (unless_decided (evaluated self.old.program.now) is_decided part.now (variables_of self.old) value (progress_of self.old))) self.new result }
        ensures near { IfOk result (λ turn. work self.new turn ≤ room self.old + 1) }
    {
        if is_decided {
            return Ok(Turn::Resume(Datum::int(truth(value))));
        }
        self.await_part(Frame::Truth, part)
    }

    /// One more variable, for the rest alone.
    fn bind(&mut self, value: Datum, rest: &'a Expr) -> Result<Turn<'a>, Stop>
        ensures goes { Goes (under self.old (evaluated self.old.program.now rest.now (variables_of self.old ++ value_of value ∷ []) (progress_of self.old))) self.new result }
        ensures near { IfOk result (λ turn. work self.new turn ≤ room self.old + 1) }
    {
        let count = self.variables.len();
        push(&mut self.variables, value)?;
        self.await_part(Frame::LetEnd(count), rest)
    }

    /// Begins a node, for which a unit of fuel was taken.
    fn open(&mut self, e: &'a Expr) -> Result<Turn<'a>, Stop>
        ensures goes { Goes (under self.old (node self.old.program.now (evaluated self.old.program.now) (out-Expr e.now) (variables_of self.old) (progress_of self.old))) self.new result }
        ensures near { IfOk result (λ turn. work self.new turn ≤ room self.old + 1) }
    {
        match e {
            Expr::Int(n) => Ok(Turn::Resume(Datum::int(*n))),
            Expr::TextLit(bytes) => Ok(Turn::Resume(text(self.alloc, bytes.as_slice())?)),
            Expr::Var(number) => Ok(Turn::Resume(self.variable(*number)?)),
            Expr::Neg(part) => self.await_part(Frame::Neg, part.get()),
            Expr::Not(part) => self.await_part(Frame::Not, part.get()),
            Expr::Op(op, left, right) => self.await_part(Frame::Left(*op, right.get()), left.get()),
            Expr::And(left, right) => self.await_part(Frame::And(right.get()), left.get()),
            Expr::Or(left, right) => self.await_part(Frame::Or(right.get()), left.get()),
            Expr::If(test, one, other) => {
                self.await_part(Frame::If(one.get(), other.get()), test.get())
            }
            Expr::Let(bound, rest) => self.await_part(Frame::Let(rest.get()), bound.get()),
            Expr::Seq(parts) => self.in_turn(parts.as_slice(), Datum::int(0)),
            Expr::ListLit(parts) => self.begin_parts(Purpose::List, parts),
            Expr::Call(number, parts) => self.begin_parts(Purpose::Call(*number), parts),
            Expr::Builtin(function, parts) => self.begin_parts(Purpose::BuiltIn(*function), parts),
            Expr::Emit(number, parts) => self.begin_parts(Purpose::Emit(*number), parts),
        }
    }

    /// All parts of a node.
    fn begin_parts(&mut self, purpose: Purpose, parts: &'a Seq<Expr>) -> Result<Turn<'a>, Stop>
        ensures goes { Goes (under self.old (gathered self.old.program.now purpose parts.now (variables_of self.old) [] (progress_of self.old))) self.new result }
        ensures near { IfOk result (λ turn. work self.new turn ≤ room self.old + 1) }
    {
        self.gather(purpose, parts.as_slice(), Vec::new(self.alloc))
    }

    /// Takes a unit of fuel and begins a node.
    fn begin(&mut self, e: &'a Expr) -> Result<Turn<'a>, Stop>
        ensures goes { Goes (outcome_from self.old (turn.Evaluate e.entry)) self.new result }
        ensures shorter { IfOk result (λ turn. work self.new turn < room self.old) }
    {
        if self.fuel == 0 {
            return Err(Stop::Faulted(FaultKind::Fuel));
        }
        self.fuel -= 1;
        self.open(e)
    }

    /// Gives a value to the frame that waited for it.
    fn resume(&mut self, frame: Frame<'a>, value: Datum) -> Result<Turn<'a>, Stop>
        ensures goes { Goes (followed (awaited self.old.program.now frame.entry (variables_of self.old) (value_of value) (progress_of self.old))
            (resumed self.old.program.now self.old.frames (variables_below frame.entry (variables_of self.old)))) self.new result }
        ensures near { IfOk result (λ turn. work self.new turn ≤ room self.old + 1) }
    {
        match frame {
            Frame::Neg => Ok(Turn::Resume(negative(&value)?)),
            Frame::Not => Ok(Turn::Resume(opposite(&value)?)),
            Frame::Truth => Ok(Turn::Resume(truth_of(&value)?)),
            Frame::Left(op, part) => self.await_part(Frame::Right(op, value), part),
            Frame::Right(op, left) => Ok(Turn::Resume(combined(op, &left, &value)?)),
            Frame::And(part) => self.unless_decided(!condition(&value)?, part, false),
            Frame::Or(part) => self.unless_decided(condition(&value)?, part, true),
            Frame::If(one, other) => {
                Ok(Turn::Evaluate(if condition(&value)? { one } else { other }))
            }
            Frame::Let(rest) => self.bind(value, rest),
            Frame::LetEnd(count) => {
                self.variables.truncate(count);
                Ok(Turn::Resume(value))
            }
            Frame::Sequence(parts) => self.in_turn(parts, value),
            Frame::Parts(purpose, parts, values) => self.add_part(purpose, parts, values, value),
            Frame::Return(caller) => {
                self.variables = caller;
                Ok(Turn::Resume(value))
            }
        }
    }

    /// The parts that are still to come, after those with the values and one more.
    fn add_part(
        &mut self,
        purpose: Purpose,
        parts: &'a [Expr],
        values: Vec<Datum>,
        value: Datum,
    ) -> Result<Turn<'a>, Stop>
        ensures goes { Goes (under self.old (gathered self.old.program.now purpose parts.now (variables_of self.old) (values_of values.items ++ value_of value ∷ []) (progress_of self.old))) self.new result }
        ensures near { IfOk result (λ turn. work self.new turn ≤ room self.old + 1) }
    {
        let mut values = values;
        push(&mut values, value)?;
        self.gather(purpose, parts, values)
    }

    /// Goes one turn on, or answers the value where nothing waits for it.
    fn step(&mut self, turn: Turn<'a>) -> Result<Next<'a>, Stop>
        ensures goes { Steps (outcome_from self.old turn.entry) self.new result }
        ensures shorter { IfOk result (λ next. remaining self.new next < work self.old turn.entry) }
    {
        match turn {
            Turn::Evaluate(e) => Ok(Next::Turn(self.begin(e)?)),
            Turn::Resume(value) => match self.frames.pop() {
                None => Ok(Next::Value(value)),
                Some(frame) => Ok(Next::Turn(self.resume(frame, value)?)),
            },
        }
    }

    /// The value of an expression, or the fault that ends its evaluation.
    pub fn run(&mut self, body: &'a Expr) -> Result<Datum, Stop>
        ensures { Ends (outcome_from self.old (turn.Evaluate body.entry)) self.new result }
    {
        let mut turn = Turn::Evaluate(body);
        loop {
            match self.step(turn)? {
                Next::Turn(next) => turn = next,
                Next::Value(value) => return Ok(value),
            }
        }
    }

    /// What was emitted, in order.
    pub fn into_emitted(self) -> Seq<Record>
        ensures { result ≡ self.entry.emitted }
    {
        let Machine { emitted, .. } = self;
        emitted
    }
}
