// A step into a value, and a path of steps.
ghost use Rattle.std.specs.Prelude.{◌≡◌, IfOk};

use plain_text::text::Text;
use std::alloc::{AllocError, Global};
use std::marker::Model;

/// One step into a value.
#[derive(Clone, Debug, Drop)]
pub enum Step {
    /// To the field of that name.
    Name(Text),
    /// To the item of that index, from 0; in `Fields` to the value named by the number in decimal.
    Index(u32),
}

impl Step {
    ghost use Rattle.data_tree.specs.declared.step.Step.{Step};

    /// The step to the field of that name.
    pub fn named(alloc: Global, name: &str) -> Result<Step, AllocError>
        ensures { IfOk result (λ step. step ≡ Step.Name name.now) }
    {
        Ok(Step::Name(Text::from(String::from_str(alloc, name)?)))
    }
}

/// Steps that are taken from the left. Contracts see the list of the steps.
#[derive(Debug, Drop)]
pub struct Path {
    steps: Vec<Step>,
}

impl Model for Path {
    ghost use Rattle.std.specs.Prelude.{List};
    ghost use Rattle.data_tree.specs.declared.step.Step.{Step};

    ghost Value = { List Step };

    ghost view = { λ p. p.steps.items };
}

impl Path {
    /// Takes the steps over, without copying them.
    pub fn new(steps: Vec<Step>) -> Path
        ensures { result ≡ steps.items }
    {
        Path { steps }
    }

    /// The steps.
    pub fn steps(&self) -> &[Step]
        ensures { result.now ≡ self.now }
    {
        self.steps.as_slice()
    }
}

impl Clone for Path {
    ghost use Rattle.std.specs.Prelude.{◌≡◌};

    ghost is_clone = { λ original copy. copy ≡ original };

    fn clone(&self) -> Result<Path, AllocError> {
        Ok(Path {
            steps: self.steps.clone()?,
        })
    }
}
