ghost use Rattle.std.specs.Prelude.{◌≡◌, ◌+◌, ◌<◌, ◌≤◌, ◌^◌, ◌==◌, count_by, IfOk, IsTrue, OnErr, OnOk, if◌then◌else◌, length};
ghost use Rattle.sn_view.specs.Epochs.{closed, is_passed, marked, moved_on, new_epochs, stands_at_output, with_child};

use sn_list::Memory;
use std::alloc::Global;
use std::marker::Model;

/// The epochs of a free dispatcher: how many marks came in, how many went out, and how many each child gave.
#[derive(Drop)]
pub struct FreeFork {
    input: u64,
    output: u64,
    /// How many children stand in the output's epoch.
    here: usize,
    children: Vec<u64>,
}

impl Model for FreeFork {
    ghost use Rattle.sn_view.specs.Epochs.{Epochs};
    ghost use Rattle.sn_dispatch.specs.Coding.{epochs_code};

    ghost Value = { Epochs };

    ghost coded = { epochs_code };

    ghost use Rattle.sn_dispatch.specs.Kept.{IsKept};

    ghost view = { λ fork. record { input = fork.input; output = fork.output; children = fork.children.items } };

    ghost invariant = { λ fork. IsKept fork.input fork.output fork.here fork.children.items };
}

/// How many of the epochs are this one.
fn count_standing(output: u64, epochs: &[u64]) -> usize
    ensures { result ≡ count_by (λ epoch. epoch == output) epochs.now }
{
    epochs.iter().filter(|epoch| **epoch == output).count()
}

impl FreeFork {
    /// Nothing came in yet, and child 0 is there, which passes the others by.
    pub fn new(alloc: Global) -> Result<FreeFork, Memory>
        ensures { IfOk result (λ fork. fork ≡ new_epochs) }
    {
        let mut children = Vec::new(alloc);
        children.push(0)?;
        Ok(FreeFork {
            input: 0,
            output: 0,
            here: 1,
            children,
        })
    }

    /// Adds a child, which stands in the input's epoch, and answers its number.
    pub fn add_child(&mut self) -> Result<u64, Memory>
        ensures child { IfOk result (λ child. child ≡ length self.old.children) }
        ensures ok { OnOk result (self.new ≡ with_child self.old) }
        ensures err { OnErr result (self.new ≡ self.old) }
    {
        let child = self.children.len();
        self.children.push(self.input)?;
        if self.input == self.output {
            self.here += 1;
        }
        Ok(child as u64)
    }

    /// Notes a mark at the input.
    pub fn close_epoch(&mut self)
        requires { self.old.input < 2 ^ 62 }
        ensures { self.new ≡ closed self.old }
    {
        self.input += 1;
    }

    /// How many marks came in.
    pub fn marks(&self) -> u64
        ensures { result ≡ self.now.input }
    {
        self.input
    }

    /// How many children there are.
    pub fn len(&self) -> usize
        ensures { result ≡ length self.now.children }
    {
        self.children.len()
    }

    /// Whether the child stands in the output's epoch.
    pub fn may_take(&self, child: u64) -> bool
        ensures { result ≡ stands_at_output self.now child }
    {
        match self.children.get(child as usize) {
            Some(epoch) => *epoch == self.output,
            None => false,
        }
    }

    /// Notes a mark that the child gave.
    pub fn child_marked(&mut self, child: u64)
        requires { IsTrue (stands_at_output self.old child) }
        ensures { self.new ≡ marked child self.old }
    {
        self.children[child as usize] += 1;
        self.here -= 1;
    }

    /// Moves the output on by one epoch where the input has closed its epoch and every child has passed it, and tells
    /// whether it did. It costs time in the number of children only where it did, after each of them has given a mark.
    pub fn out_mark(&mut self) -> bool
        ensures answer { result ≡ is_passed self.old }
        ensures moved { self.new ≡ (if result then moved_on self.old else self.old) }
    {
        if self.output == self.input {
            return false;
        }
        if self.here > 0 {
            return false;
        }
        self.output += 1;
        self.here = count_standing(self.output, self.children.as_slice());
        true
    }
}
