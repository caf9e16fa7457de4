// A pattern with what its searches write to. A `Matcher` of `regex` borrows its `Regex`, so no type can own both: the
// searches here run on the crates below `regex`, and keep the states of the DFA that they make.
ghost use Rattle.std.specs.Prelude.{◌≡◌, ◌≤◌, vec_len, length, is_some, IfOk, IfErr};
ghost use Rattle.regex.specs.Strings.{IsDefaultFailure};
ghost use Rattle.regex_dfa.specs.Search.{IsForwardFor};
ghost use Rattle.regex_hir.specs.Text.{is_boundary};
ghost use Rattle.value_match.specs.Inner.Search.{run_in_text, found_in};
ghost use Rattle.value_match.specs.Inner.Engine.{IsReadFrom};

use crate::automaton::Automaton;
use regex::Error;
use regex_dfa::{End, Forward};
use regex_vm::PikeVm;
use std::alloc::Global;

pub(crate) struct Pattern {
    pub(crate) automaton: Automaton,
    forward: Forward,
    /// Searches where the DFA gives up.
    pikevm: PikeVm,
    ghost runs: { IsForwardFor forward automaton.dfa },
    ghost states: { pikevm.states ≡ vec_len automaton.dfa.nfa.states },
}

impl Pattern {
    pub(crate) fn new(alloc: Global, source: &str) -> Result<Pattern, Error>
        ensures read { IfOk result (λ p. IsReadFrom source.now p.automaton) }
        ensures refused { IfErr result (IsDefaultFailure source.now) }
    {
        let automaton = Automaton::new(alloc, source)?;
        let forward = Forward::new(alloc, &automaton.dfa, false)?;
        let pikevm = PikeVm::new(alloc, &automaton.dfa.nfa)?;
        Ok(Pattern {
            automaton,
            forward,
            pikevm,
        })
    }

    /// Whether it has a match in the text. Where there is no memory for the DFA, the NFA is searched.
    pub(crate) fn is_match(&mut self, text: &str) -> bool
        ensures found { result ≡ is_some (found_in self.old.automaton.dfa.nfa text.now) }
        ensures same { self.new.automaton ≡ self.old.automaton }
    {
        search(&self.automaton, &mut self.forward, &mut self.pikevm, text)
    }
}

// Written out, so that a caller's proof sees one call and not the drop of each field.
impl Drop for Pattern {
    fn drop(self) {
        let Pattern {
            automaton: _automaton,
            forward: _forward,
            pikevm: _pikevm,
        } = self;
    }
}

fn search(automaton: &Automaton, forward: &mut Forward, pikevm: &mut PikeVm, text: &str) -> bool
    requires runs { IsForwardFor forward.old automaton.now.dfa }
    requires states { pikevm.old.states ≡ vec_len automaton.now.dfa.nfa.states }
    ensures found { result ≡ is_some (found_in automaton.now.dfa.nfa text.now) }
    ensures runs { IsForwardFor forward.new automaton.now.dfa }
    ensures states { pikevm.new ≡ pikevm.old }
{
    let hay = text.as_bytes();
    for at in 0..=hay.len() {
        if matches_at(automaton, forward, pikevm, hay, at) {
            return true;
        }
        if automaton.anchored {
            return false;
        }
    }
    false
}

/// Whether a match starts at this byte. None starts inside a character.
fn matches_at(
    automaton: &Automaton,
    forward: &mut Forward,
    pikevm: &mut PikeVm,
    hay: &[u8],
    at: usize,
) -> bool
    requires runs { IsForwardFor forward.old automaton.now.dfa }
    requires states { pikevm.old.states ≡ vec_len automaton.now.dfa.nfa.states }
    requires within { at ≤ length hay.now }
    ensures found { result ≡ is_some (run_in_text automaton.now.dfa.nfa hay.now at) }
    ensures runs { IsForwardFor forward.new automaton.now.dfa }
    ensures states { pikevm.new ≡ pikevm.old }
{
    if !is_cut(hay, at) {
        return false;
    }
    match forward.find_end(&automaton.dfa, hay, at, hay.len(), true, true) {
        End::At(_) => true,
        End::NoMatch => false,
        End::Idle(_) | End::GaveUp => pikevm.is_match(&automaton.dfa.nfa, hay, at, at, hay.len()),
    }
}

/// Whether no character goes on at this byte.
fn is_cut(hay: &[u8], at: usize) -> bool
    ensures { result ≡ is_boundary hay.now at }
{
    if at >= hay.len() {
        return true;
    }
    (hay[at] < 0x80) | (hay[at] > 0xBF)
}
