// A template and a path, segment by segment.
ghost use Rattle.std.specs.Prelude.{◌≡◌};
ghost use Rattle.path_template.specs.Inner.Walks.{fits, IsStep};

use crate::segments::{Segments, name_in};

/// What is left of a template and of a path.
#[derive(Clone, Copy, Debug)]
pub(crate) struct Walk<'t, 'p> {
    pub(crate) template: Segments<'t>,
    pub(crate) path: Segments<'p>,
}

/// What the first segments of both say.
#[derive(Clone, Copy, Debug)]
pub(crate) enum Step<'t, 'p> {
    /// Nothing is left of either.
    Ends,
    Differs,
    Fits {
        name: Option<&'t str>,
        segment: &'p str,
        rest: Walk<'t, 'p>,
    },
}

impl<'t, 'p> Walk<'t, 'p> {
    pub(crate) fn step(self) -> Step<'t, 'p>
        ensures { IsStep self.entry result }
    {
        match (self.template.split_first(), self.path.split_first()) {
            (None, None) => Step::Ends,
            (Some((piece, template)), Some((segment, path))) => {
                let name = name_in(piece);
                if fits(piece, name, segment) {
                    Step::Fits {
                        name,
                        segment,
                        rest: Walk { template, path },
                    }
                } else {
                    Step::Differs
                }
            }
            _ => Step::Differs,
        }
    }
}

// A segment with a name takes any text that isn't empty.
fn fits(piece: &str, name: Option<&str>, segment: &str) -> bool
    ensures { result ≡ fits piece.now name.entry segment.now }
{
    match name {
        Some(_) => !segment.is_empty(),
        None => segment == piece,
    }
}
