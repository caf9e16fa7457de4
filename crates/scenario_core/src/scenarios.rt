// The state of each scenario.
ghost use Rattle.std.specs.Prelude.{◌≡◌, IfOk, OnOk, OnErr};
ghost use Rattle.std.specs.FinMap as fin_map;
ghost use Rattle.scenario_core.specs.Scenarios.{started, state_of, MovesTo, AreAllStarted};

use crate::entries::{Entry, search};
use std::alloc::{AllocError, Global};
use std::marker::Model;

/// The state in which every scenario begins.
pub const STARTED: &str = "Started";

/// The state of each scenario. Kept are the states that aren't `STARTED`, in order of the scenarios' names.
#[derive(Debug)]
pub struct Scenarios {
    entries: Vec<Entry>,
}

// Written out, so that a caller's proof sees one call and not the drop of each part.
impl Drop for Scenarios {
    fn drop(self) {
        let Scenarios { entries: _entries } = self;
    }
}

impl Model for Scenarios {
    ghost use Rattle.std.specs.Coded.{coded_list, coded_ℕ};
    ghost use Rattle.std.specs.FinMap as fin_map;
    ghost use Rattle.scenario_core.specs.Scenarios.{States};

    ghost Value = { States };

    ghost coded = { fin_map.code (coded_list coded_ℕ) (coded_list coded_ℕ) };

    ghost use Rattle.scenario_core.specs.Inner.Entries.{pairs_of, AreInOrder};

    ghost view = { λ s. fin_map.from_sorted (pairs_of s.entries.items) };

    ghost invariant = { λ s. AreInOrder (pairs_of s.entries.items) };
}

impl Scenarios {
    /// Every scenario is in `STARTED`.
    pub fn new(alloc: Global) -> Scenarios
        ensures empty { result ≡ fin_map.empty }
        ensures started { AreAllStarted result }
    {
        Scenarios {
            entries: Vec::new(alloc),
        }
    }

    /// The state of the scenario with this name, whether or not a mapping names it. Takes no memory.
    pub fn state(&self, name: &str) -> &str
        ensures { result.now ≡ state_of self.now name.now }
    {
        match search(&self.entries, name) {
            Ok(at) => self.entries[at].state.as_str(),
            Err(_) => STARTED,
        }
    }

    /// Moves the scenario to the state, as serving a mapping does.
    pub fn move_to(&mut self, alloc: Global, name: &str, state: &str) -> Result<(), AllocError>
        ensures ok { OnOk result (MovesTo self.old self.new name.now state.now) }
        ensures err { OnErr result (self.new ≡ self.old) }
    {
        if state == STARTED {
            self.start(name);
            return Ok(());
        }
        match search(&self.entries, name) {
            Ok(at) => {
                let state = String::from_str(alloc, state)?;
                self.entries[at].state = state;
                Ok(())
            }
            Err(at) => {
                let name = String::from_str(alloc, name)?;
                let state = String::from_str(alloc, state)?;
                Ok(self.entries.insert(at, Entry { name, state })?)
            }
        }
    }

    /// Sets every scenario back to `STARTED`. Takes no memory.
    pub fn reset(&mut self)
        ensures empty { self.new ≡ fin_map.empty }
        ensures started { AreAllStarted self.new }
    {
        self.entries.clear();
    }

    pub fn try_clone(&self) -> Result<Scenarios, AllocError>
        ensures { IfOk result (λ copy. copy ≡ self.now) }
    {
        self.clone()
    }

    fn start(&mut self, name: &str)
        ensures { MovesTo self.old self.new name.now started }
    {
        if let Ok(at) = search(&self.entries, name) {
            let _entry = self.entries.remove(at);
        }
    }
}

impl Clone for Scenarios {
    ghost use Rattle.std.specs.Prelude.{◌≡◌};

    ghost is_clone = { λ original copy. copy ≡ original };

    fn clone(&self) -> Result<Scenarios, AllocError> {
        Ok(Scenarios {
            entries: self.entries.clone()?,
        })
    }
}
