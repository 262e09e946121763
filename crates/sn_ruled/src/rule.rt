//! What a pass at a queue knows, and the steps by which passes come and go. All of it stands in proofs alone: no value of these types is made.
//! The steps that push and pop, and the rule, are those of the crates above, by specs/Rule.
use crossbeam_queue::protocol::{Join, Split};
use std::collections::LinkedList;
use std::marker::{Brand, PhantomData};

/// What a pass is for.
pub enum Role<O> {
    /// The first pass, until it is split. It knows no owner yet.
    Maker,
    /// Pushes values of the owner.
    Pusher(O),
    /// Pops values of the owner.
    Popper(O),
    /// Nothing more: it was given back.
    GivenBack,
}

/// What a pass knows: what it is for, and what it pushed and popped so far.
pub struct Known<O, T> {
    pub role: Role<O>,
    pub pushed: LinkedList<T>,
    pub popped: LinkedList<T>,
}

/// Whose the values are. Each call that makes queues picks it.
pub trait Owned<O> {
    ghost use Rattle.std.specs.Prelude.{Option};

    ghost owner: { Option O };
}

impl<O> Owned<O> for Brand {
    ghost use Rattle.std.specs.Prelude.{None};

    ghost owner = { None };
}

/// The maker's split, at which the owner is written into both views.
pub struct Opens<J> {
    of: PhantomData<J>,
}

impl<O, T, J: Owned<O>> Split<Known<O, T>> for Opens<J> {
    ghost use Rattle.std.specs.Prelude.{[]};
    ghost use Rattle.sn_ruled.specs.Rule.{known, pusher_of, popper_of};

    ghost left = { λ v. known (pusher_of J.owner) [] [] };

    ghost right = { λ v. known (popper_of J.owner) [] [] };
}

/// A later split makes a pass of the same role that has done nothing yet, and a join takes in what the other did.
pub struct Shares;

impl<O, T> Split<Known<O, T>> for Shares {
    ghost use Rattle.sn_ruled.specs.Rule.{fresh};

    ghost left = { λ v. v };

    ghost right = { fresh };
}

impl<O, T> Join<Known<O, T>> for Shares {
    ghost use Rattle.sn_ruled.specs.Rule.{both, given_back};

    ghost both = { both };

    ghost spent = { given_back };
}
