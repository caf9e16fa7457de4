// The scenarios and states that live mappings name.
ghost use Rattle.std.specs.Prelude.{◌≡◌, ◌↔◌, Some, All, Any, IsTrue, map};
ghost use Rattle.request_journal.specs.State.{IsIn, Names};
ghost use Rattle.mapping_store.specs.Kept.{Fits, placed_of};

use crate::book_mapping::BookMapping;
use crate::eligible::spec_of;
use crate::entry::Entry;
use mapping_model::scenario_spec::ScenarioSpec;
use plain_text::text::Text;

/// Whether the mapping of an entry plays a part in the scenario.
pub(crate) fn knows(entries: &[Entry], defaults: &[BookMapping], scenario: &str) -> bool
    requires { All (Fits defaults.now) entries.now }
    ensures { IsTrue result ↔ Any (λ p. IsIn scenario.now p.mapping.spec.scenario) (map placed_of entries.now) }
{
    for i in 0..entries.len() {
        if is_in(scenario, &spec_of(&entries[i], defaults).spec().scenario) {
            return true;
        }
    }
    false
}

/// Whether the mapping of an entry names the state of the scenario.
pub(crate) fn names(
    entries: &[Entry],
    defaults: &[BookMapping],
    scenario: &str,
    state: &str,
) -> bool
    requires { All (Fits defaults.now) entries.now }
    ensures { IsTrue result
        ↔ Any (λ p. Names scenario.now state.now p.mapping.spec.scenario) (map placed_of entries.now) }
{
    for i in 0..entries.len() {
        if names_state(
            scenario,
            state,
            &spec_of(&entries[i], defaults).spec().scenario,
        ) {
            return true;
        }
    }
    false
}

fn is_in(name: &str, scenario: &Option<ScenarioSpec>) -> bool
    ensures { IsTrue result ↔ IsIn name.now scenario.now }
{
    matches!(scenario, Some(scenario) if scenario.name.as_str() == name)
}

fn names_state(name: &str, state: &str, scenario: &Option<ScenarioSpec>) -> bool
    ensures { IsTrue result ↔ Names name.now state.now scenario.now }
{
    match scenario {
        Some(scenario) => {
            scenario.name.as_str() == name
                && (is_text(&scenario.required, state) || is_text(&scenario.next, state))
        }
        None => false,
    }
}

fn is_text(text: &Option<Text>, wanted: &str) -> bool
    ensures { IsTrue result ↔ (text.now ≡ Some wanted.now) }
{
    matches!(text, Some(text) if text.as_str() == wanted)
}
