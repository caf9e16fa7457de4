// What a pattern is compiled to: the automata of its text, without the plans for faster searches that a `Regex` makes.
ghost use Rattle.std.specs.Prelude.{◌≡◌, true, map, option_map, string_bytes, IfOk, IfErr};
ghost use Rattle.regex.specs.Patterns.{default_config, Reads};
ghost use Rattle.regex.specs.Sources.{IsRefusal};
ghost use Rattle.regex.specs.Failures.{IsRightKind, HasSpanIn};
ghost use Rattle.regex_hir.specs.Meaning.{meaning};
ghost use Rattle.regex_compile.specs.Implements.{Implements};
ghost use Rattle.value_match.specs.Inner.Search.{StartsAtZero};

use regex::Error;
use regex_dfa::Dfa;
use regex_hir::Hir;
use regex_syntax::{Config, Parsed};
use std::alloc::Global;

/// How many bytes the tables of a pattern may take, as in `Regex::new`.
const SIZE_LIMIT: usize = 10_485_760;

pub(crate) struct Automaton {
    /// The NFA, with what a search needs to make the states of a DFA.
    pub(crate) dfa: Dfa,
    /// Whether a match can only start at the first byte.
    pub(crate) anchored: bool,
    pub(crate) ghost starts: { ∥ (anchored ≡ true → StartsAtZero dfa.nfa) ∥₁ },
}

impl Automaton {
    ghost use Rattle.value_match.specs.Inner.Engine.{IsReadFrom};

    /// Compiles a pattern by the steps and with the limits of `Regex::new`.
    pub(crate) fn new(alloc: Global, source: &str) -> Result<Automaton, Error>
        ensures read { IfOk result (IsReadFrom source.now) }
        ensures by_grammar { IfErr result (IsRefusal default_config source.now) }
        ensures kind { IfErr result (IsRightKind default_config source.now) }
        ensures span { IfErr result (HasSpanIn source.now) }
    {
        let parsed = parsed(alloc, source)?;
        let Ok(groups) = u32::try_from(parsed.names.len()) else {
            return Err(Error::CompiledTooBig);
        };
        Ok(Automaton {
            dfa: compiled(alloc, &parsed.hir, groups)?,
            anchored: regex_extract::is_anchored_start(&parsed.hir),
        })
    }
}

// Written out, so that a caller's proof sees one call and not the drop of each field.
impl Drop for Automaton {
    fn drop(self) {
        let Automaton {
            dfa: _dfa,
            anchored: _anchored,
        } = self;
    }
}

/// What the text is read as, with the options of `Regex::new`.
pub(crate) fn parsed(alloc: Global, source: &str) -> Result<Parsed, Error>
    ensures read { IfOk result (λ p.
        Reads default_config source.now p.hir (map (option_map string_bytes) p.names.items)) }
    ensures by_grammar { IfErr result (IsRefusal default_config source.now) }
    ensures kind { IfErr result (IsRightKind default_config source.now) }
    ensures span { IfErr result (HasSpanIn source.now) }
{
    Ok(regex_syntax::parse(alloc, source, &Config::default())?)
}

fn compiled(alloc: Global, hir: &Hir, groups: u32) -> Result<Dfa, regex_compile::Error>
    ensures { IfOk result (λ dfa. Implements dfa.nfa (meaning hir.now)) }
{
    let nfa = regex_compile::compile(alloc, hir, groups, SIZE_LIMIT)?;
    Ok(Dfa::new(alloc, nfa)?)
}
