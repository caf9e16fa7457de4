// The part that a mapping plays in a scenario.

use crate::same_option::same_option;
use plain_text::plain::Same;
use plain_text::text::Text;

/// A scenario of a mapping: the state that it requires, and the state that serving it moves the scenario to.
#[derive(Clone, Drop)]
pub struct ScenarioSpec {
    pub name: Text,
    pub required: Option<Text>,
    pub next: Option<Text>,
}

impl Same for ScenarioSpec {
    fn same(&self, other: &ScenarioSpec) -> bool {
        self.name.same(&other.name)
            && same_option(&self.required, &other.required)
            && same_option(&self.next, &other.next)
    }
}
