//! What a source may be refused for, and which refusal comes.
ghost use Rattle.std.specs.Prelude.{◌≡◌, None};
ghost use Rattle.sn_label_scope.specs.Refusals.{comes_before, noted, rank, required};

use std::marker::Model;

/// Why a part of a source is refused.
#[derive(Clone, Copy)]
pub enum Reason {
    /// A name that isn't visible or isn't of the kind wanted, or a label that the pattern doesn't have. In a box: a name that
    /// is no variable there, or a call of no function.
    Unknown,
    /// A second declaration of a name in one scope, or a second equal label. In a box: a second function of one name, one with
    /// the name of a built-in function, or a second equal parameter.
    Twice,
    /// A number of templates, patterns or branches that is not allowed. In a box: more than 8 parameters, arguments in another
    /// number than the function takes, or an output tuple that is not there or has more or fewer labels.
    Arity,
    /// A tag of a guard that its exit pattern doesn't have.
    GuardTag,
}

/// A part of a source that is refused, at its byte offset.
#[derive(Clone, Copy)]
pub struct Refusal {
    pub reason: Reason,
    pub at: u32,
}

/// What was refused so far, of which the refusal that comes is kept: the one at the least place.
#[derive(Drop)]
pub struct Refusals {
    least: Option<Refusal>,
}

impl Model for Refusals {
    ghost use Rattle.std.specs.Prelude.{Option};
    ghost use Rattle.sn_label_scope.specs.declared.refusal.Refusal.{Refusal};
    ghost use Rattle.sn_label_scope.specs.contracts.refusal.Refusal as refusal;
    ghost use Rattle.std.specs.Coded.{coded_option};

    ghost Value = { Option Refusal };

    ghost coded = { coded_option refusal.the_row.coded };

    ghost view = { λ s. s.least };
}

impl Reason {
    /// Its place among several reasons at one place.
    fn rank(self) -> u32
        ensures { result ≡ rank self }
    {
        match self {
            Reason::Unknown => 1,
            Reason::Twice => 2,
            Reason::Arity => 3,
            Reason::GuardTag => 5,
        }
    }
}

impl Refusal {
    /// Whether it comes where both are there.
    fn comes_before(self, other: Refusal) -> bool
        ensures { result ≡ comes_before self other }
    {
        self.at < other.at || (self.at == other.at && self.reason.rank() < other.reason.rank())
    }
}

impl Refusals {
    pub fn new() -> Refusals
        ensures { result ≡ None }
    {
        Refusals { least: None }
    }

    /// The one at the least place, and there the first by reason.
    pub fn least(&self) -> Option<Refusal>
        ensures { result ≡ self.now }
    {
        self.least
    }

    /// Notes a refusal.
    fn note(&mut self, refusal: Refusal)
        ensures { self.new ≡ noted self.old refusal }
    {
        match self.least {
            Some(least) => {
                if refusal.comes_before(least) {
                    self.least = Some(refusal);
                }
            }
            None => self.least = Some(refusal),
        }
    }

    /// Notes a refusal where what is required doesn't hold.
    pub fn require(&mut self, holds: bool, reason: Reason, at: u32)
        ensures { self.new ≡ required holds reason at self.old }
    {
        if !holds {
            self.note(Refusal { reason, at });
        }
    }
}
