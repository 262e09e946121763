//! The rule of a stream, and what its steps tell. All of it stands in proofs alone: no value of these types is made.
use crate::item::StreamItem;
use crossbeam_queue::RuledArrayQueue;
use crossbeam_queue::protocol::{Lesson, Outcome, Protocol, Split};
use std::collections::LinkedList;
use std::marker::{Brand, PhantomData};

/// What a pass knows: which moves it makes, the stated list, and its moves so far. In the stated list stands each entry as a stream
/// holds it, or nothing for one that no stream may hold.
pub struct Known {
    pub puts: bool,
    pub gets: bool,
    pub stated: LinkedList<Option<StreamItem>>,
    pub moved: LinkedList<StreamItem>,
}

/// The rule.
pub struct Flow;

impl Protocol<StreamItem, Known> for Flow {
    ghost use Rattle.sn_stream.specs.Flow.{Flows, maker};

    ghost holds = { Flows };

    ghost first = { maker };
}

/// Which list is stated. Each call that makes a stream picks it.
pub trait Stating {
    ghost use Rattle.std.specs.Prelude.{List, Option};
    ghost use Rattle.sn_stream.specs.declared.item.StreamItem.{StreamItem};

    ghost stated: { List (Option StreamItem) };
}

impl Stating for Brand {
    ghost use Rattle.std.specs.Prelude.{[]};

    ghost stated = { [] };
}

/// The split of the maker's pass, at which the stated list is picked.
pub struct Opens<J> {
    of: PhantomData<J>,
}

impl<J: Stating> Split<Known> for Opens<J> {
    ghost use Rattle.sn_stream.specs.Flow.{getter, putter};

    ghost left = { λ v. putter J.stated };

    ghost right = { λ v. getter J.stated };
}

/// A put.
pub struct Puts;

impl Outcome<StreamItem, Known> for Puts {
    ghost use Rattle.sn_stream.specs.Flow.{Put};

    ghost then = { Put };
}

impl Lesson<StreamItem, Known> for Puts {
    ghost use Rattle.sn_stream.specs.Flow.{IsLastOf};

    ghost fact = { λ v held. IsLastOf v.moved held };
}

/// A get.
pub struct Gets;

impl Outcome<StreamItem, Known> for Gets {
    ghost use Rattle.sn_stream.specs.Flow.{Got};

    ghost then = { Got };
}

impl Lesson<StreamItem, Known> for Gets {
    ghost use Rattle.sn_stream.specs.Flow.{Moment};

    ghost fact = { Moment };
}

pub type Line = RuledArrayQueue<StreamItem, Known, Flow>;
