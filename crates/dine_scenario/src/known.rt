//! The names that a line may use, since lines before it join them.

ghost use Rattle.std.specs.Prelude.{◌≡◌, [], IfOk, OnOk, option_copied};
ghost use Rattle.std.specs.List.{list_all, list_any};
ghost use Rattle.dine_scenario.specs.Asked.{is_known, joined_by, known_after, known_after_any, needed_by, needed_by_step, setup_call, worker_step};

use crate::scenario::{NamedCall, Step};
use crate::worker_line::{read_call, read_step};
use dine_lines::{LineFault, Name, Seed};
use indexmap::IndexSet;
use std::alloc::{AllocError, Global};
use std::marker::Model;

/// The names that lines have joined so far, each once, in the order in which they were joined first.
#[derive(Drop)]
pub struct KnownNames {
    names: IndexSet<Name, Seed>,
}

impl Model for KnownNames {
    ghost use Rattle.std.specs.Prelude.{ℕ, List};

    ghost Value = { List (List ℕ) };

    ghost view = { λ known. known.names.keys };
}

impl KnownNames {
    /// No name is known. It takes no memory yet, and takes it from `alloc` as it grows. Names are found by hashes of the
    /// seed.
    pub fn new(alloc: Global, seed: Seed) -> KnownNames
        ensures { result ≡ [] }
    {
        KnownNames {
            names: IndexSet::with_hasher(alloc, seed),
        }
    }

    /// The same names once more.
    pub fn copy(&self) -> Result<KnownNames, AllocError>
        ensures { IfOk result (λ known. known ≡ self.now) }
    {
        Ok(KnownNames {
            names: self.names.clone()?,
        })
    }

    /// What a line of the setup asks for, or the first fault that it has.
    pub fn read_setup_line(&self, line: &[u8]) -> Result<NamedCall, LineFault>
        ensures { result ≡ setup_call self.now line.now }
    {
        let call = read_call(line)?;
        if self.has_joined(&call) {
            Err(LineFault::Bound)
        } else if self.has_needed(&call) {
            Ok(call)
        } else {
            Err(LineFault::Unbound)
        }
    }

    /// What a line of a worker asks for, or the first fault that it has.
    pub fn read_worker_line(&self, line: &[u8]) -> Result<Step, LineFault>
        ensures { result ≡ worker_step self.now line.now }
    {
        let step = read_step(line)?;
        if self.has_needed_by_step(&step) {
            Ok(step)
        } else {
            Err(LineFault::Unbound)
        }
    }

    /// Learns the name that a call joins, which is known from then on. On `Err` nothing is changed.
    pub fn learn(&mut self, call: &NamedCall) -> Result<(), AllocError>
        ensures { OnOk result (self.new ≡ known_after self.old call.now) }
    {
        if let NamedCall::Join(name) = call {
            self.names.insert(*name)?;
        }
        Ok(())
    }

    /// Learns the name that a call joins, if there is a call. On `Err` nothing is changed.
    pub fn learn_from(&mut self, call: Option<&NamedCall>) -> Result<(), AllocError>
        ensures { OnOk result (self.new ≡ known_after_any self.old (option_copied call.entry)) }
    {
        match call {
            Some(call) => self.learn(call),
            None => Ok(()),
        }
    }

    // Whether the name that the call joins is known.
    fn has_joined(&self, call: &NamedCall) -> bool
        ensures { result ≡ list_any (is_known self.now) (joined_by call.now) }
    {
        match call {
            NamedCall::Join(name) => self.has(*name),
            NamedCall::OnOne(..) | NamedCall::OnTwo(..) => false,
        }
    }

    // Whether the names that are to be joined before the step are known.
    fn has_needed_by_step(&self, step: &Step) -> bool
        ensures { result ≡ list_all (is_known self.now) (needed_by_step step.now) }
    {
        match step {
            Step::Call(call) => self.has_needed(call),
            Step::Eat(name) | Step::Look(name) => self.has(*name),
        }
    }

    // Whether the names that are to be joined before the call are known.
    fn has_needed(&self, call: &NamedCall) -> bool
        ensures { result ≡ list_all (is_known self.now) (needed_by call.now) }
    {
        match call {
            NamedCall::Join(_) => true,
            NamedCall::OnOne(_, name) => self.has(*name),
            NamedCall::OnTwo(_, first, second) => self.has(*first) && self.has(*second),
        }
    }

    // Whether the name is known.
    fn has(&self, name: Name) -> bool
        ensures { result ≡ is_known self.now name }
    {
        self.names.contains(&name)
    }
}
