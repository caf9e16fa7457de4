// Paths into JSON values, as `$.a['b c'][0]`.
ghost use Rattle.std.specs.Prelude.{◌≡◌, ◌∷◌, ◌↔◌, IfOk, IfSome, IsSome, IsErrOf, IsTrue};
ghost use Rattle.json_bridge.specs.Path.{dollar, SpellsPath, IsPath};
ghost use Rattle.json_bridge.specs.Inner.NextStep.{IsSteps, HasOnlySteps};

use crate::error::JsonPathError;
use crate::next_step::{after_byte, next_step};
use data_tree::step::{Path, Step};
use std::alloc::{AllocError, Global};
use std::marker::Model;

/// A path: steps that are taken from the left. Contracts see the list of the steps.
#[derive(Debug, Drop)]
pub struct JsonPath {
    path: Path,
}

impl Model for JsonPath {
    ghost use Rattle.std.specs.Prelude.{List};
    ghost use Rattle.data_tree.specs.declared.step.Step.{Step};

    ghost Value = { List Step };

    ghost view = { λ p. p.path };
}

impl JsonPath {
    /// The path that a text spells: `$`, then steps `.name`, of ASCII letters, digits, `_` and `-`, `['text']`,
    /// of any text without `'`, and `[n]`, of one to nine digits with no `0` before another. `.0` is a name,
    /// and `[0]` an index. A text that spells none is refused before any memory is taken.
    pub fn parse(alloc: Global, text: &str) -> Result<JsonPath, JsonPathError>
        ensures found { IfOk result (λ path. SpellsPath text.now path) }
        ensures bad { IsErrOf result JsonPathError.BadPath ↔ ¬ (IsPath text.now) }
    {
        let steps = spelled_steps(text).ok_or(JsonPathError::BadPath)?;
        Ok(JsonPath {
            path: steps_of(alloc, steps)?,
        })
    }

    /// The steps.
    pub fn steps(&self) -> &[Step]
        ensures { result.now ≡ self.now }
    {
        self.path.steps()
    }
}

/// Whether the text spells a path. It takes no memory.
pub fn is_json_path(text: &str) -> bool
    ensures { IsTrue result ↔ IsPath text.now }
{
    spelled_steps(text).is_some()
}

// What follows the `$` of a path.
fn spelled_steps(text: &str) -> Option<&str>
    ensures path { IsSome result ↔ IsPath text.now }
    ensures rest { IfSome result (λ rest. text.now ≡ dollar ∷ rest.now) }
{
    let rest = after_byte(text, '$')?;
    if is_steps(rest) { Some(rest) } else { None }
}

// Whether the text is steps to its end.
fn is_steps(text: &str) -> bool
    ensures { IsTrue result ↔ IsSteps text.now }
{
    let mut rest = text;
    while !rest.is_empty() {
        let Some((_step, after)) = next_step(rest) else {
            return false;
        };
        rest = after;
    }
    true
}

// The steps of a text that is steps to its end.
fn steps_of(alloc: Global, text: &str) -> Result<Path, AllocError>
    ensures { IfOk result (λ steps. HasOnlySteps text.now steps) }
{
    let mut steps = Vec::new(alloc);
    let mut rest = text;
    while let Some((step, after)) = next_step(rest) {
        steps.push(step.to_step(alloc)?)?;
        rest = after;
    }
    Ok(Path::new(steps))
}
