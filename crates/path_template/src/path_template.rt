// A path whose segments may be names in braces.
ghost use Rattle.std.specs.Prelude.{◌≡◌, ◌↔◌, IfOk, OnOk, IsErrOf, IsTrue, MatchOption, None, option_map};
ghost use Rattle.std.specs.Prelude.{option_copied};
ghost use Rattle.path_template.specs.Template.{IsTemplate};
ghost use Rattle.mock_request.specs.Values.{pairs_of};
ghost use Rattle.path_template.specs.Matching.{Matches, bindings_of, binding_of};
ghost use Rattle.path_template.specs.Inner.Walks.{bound_by};

use crate::error::PathTemplateError;
use crate::names::{are_distinct, names};
use crate::segments::Segments;
use crate::walk::{Step, Walk};
use std::alloc::{AllocError, Global};
use std::marker::Model;

/// A path whose segments may be names in braces, as `/orders/{id}`.
#[derive(Debug, Drop)]
pub struct PathTemplate {
    source: String,
}

impl Model for PathTemplate {
    ghost use Rattle.std.specs.Prelude.{ℕ, List, string_bytes};
    ghost use Rattle.path_template.specs.Template.{IsTemplate};

    ghost Value = { List ℕ };

    ghost view = { λ t. string_bytes t.source };

    ghost invariant = { λ t. IsTemplate (string_bytes t.source) };
}

impl PathTemplate {
    /// The template that the text spells. A `?` and a text that doesn't begin with a slash are found without memory.
    pub fn parse(alloc: Global, text: &str) -> Result<PathTemplate, PathTemplateError>
        ensures ok { IfOk result (λ template. template ≡ text.now) }
        ensures spelled { OnOk result (IsTemplate text.now) }
        ensures bad_url { IsErrOf result PathTemplateError.BadUrl → ¬ (IsTemplate text.now) }
    {
        let Some(segments) = Segments::of(text) else {
            return Err(PathTemplateError::BadUrl);
        };
        if text.contains('?') {
            return Err(PathTemplateError::BadUrl);
        }
        if !are_distinct(alloc, &names(alloc, segments)?)? {
            return Err(PathTemplateError::BadUrl);
        }
        Ok(PathTemplate {
            source: String::from_str(alloc, text)?,
        })
    }

    /// The text of the template.
    pub fn source(&self) -> &str
        ensures value { result.now ≡ self.now }
        ensures template { IsTemplate result.now }
    {
        self.source.as_str()
    }

    /// Whether the path matches. Takes no memory.
    pub fn matches(&self, path: &str) -> bool
        ensures { IsTrue result ↔ Matches self.now path.now }
    {
        let Some(mut walk) = self.walk(path) else {
            return false;
        };
        loop {
            match walk.step() {
                Step::Ends => return true,
                Step::Differs => return false,
                Step::Fits { rest, .. } => walk = rest,
            }
        }
    }

    /// The template's names with their segments of the path, in the template's order. `None`: the path doesn't match.
    pub fn bindings(
        &self,
        alloc: Global,
        path: &str,
    ) -> Result<Option<Vec<(String, String)>>, AllocError>
        ensures { IfOk result (λ found.
            option_map (λ pairs. pairs_of pairs.items) found ≡ bindings_of self.now path.now) }
    {
        let Some(mut walk) = self.walk(path) else {
            return Ok(None);
        };
        let mut bindings = Vec::new(alloc);
        loop {
            match walk.step() {
                Step::Ends => return Ok(Some(bindings)),
                Step::Differs => return Ok(None),
                Step::Fits {
                    name,
                    segment,
                    rest,
                } => {
                    if let Some(name) = name {
                        bindings.push((
                            String::from_str(alloc, name)?,
                            String::from_str(alloc, segment)?,
                        ))?;
                    }
                    walk = rest;
                }
            }
        }
    }

    /// The segment of the path that the name is bound to. `None`: the path doesn't match, or the template doesn't
    /// have the name. Takes no memory.
    pub fn binding<'p>(&self, path: &'p str, name: &str) -> Option<&'p str>
        ensures { option_copied result ≡ binding_of self.now path.now name.now }
    {
        let mut walk = self.walk(path)?;
        let mut found = None;
        loop {
            match walk.step() {
                Step::Ends => return found,
                Step::Differs => return None,
                Step::Fits {
                    name: bound,
                    segment,
                    rest,
                } => {
                    if found.is_none() && bound == Some(name) {
                        found = Some(segment);
                    }
                    walk = rest;
                }
            }
        }
    }

    // The template and the path from their starts, if the path begins with a slash.
    fn walk<'t, 'p>(&'t self, path: &'p str) -> Option<Walk<'t, 'p>>
        ensures { MatchOption result (bindings_of self.now path.now ≡ None)
            (λ walk. bound_by walk ≡ bindings_of self.now path.now) }
    {
        Some(Walk {
            template: Segments::of(self.source())?,
            path: Segments::of(path)?,
        })
    }
}
