// The names of a template.
ghost use Rattle.std.specs.Prelude.{◌≡◌, ◌≢◌, ◌↔◌, map, AllPairs, IfOk, IsTrue};
ghost use Rattle.path_template.specs.Template.{piece_of, names_of};
ghost use Rattle.path_template.specs.Inner.Walks.{left_of};

use crate::segments::{Segments, name_in};
use std::alloc::{AllocError, Global};
use std::collections::BTreeSet;

/// The names that the segments bind, in their order.
pub(crate) fn names<'t>(alloc: Global, segments: Segments<'t>) -> Result<Vec<&'t str>, AllocError>
    ensures { IfOk result (λ names.
        map (λ name. name.now) names.items ≡ names_of (map piece_of (left_of segments.entry))) }
{
    let mut names = Vec::new(alloc);
    let mut left = segments;
    while let Some((segment, rest)) = left.split_first() {
        if let Some(name) = name_in(segment) {
            names.push(name)?;
        }
        left = rest;
    }
    Ok(names)
}

/// No two of the names are equal.
pub(crate) fn are_distinct(alloc: Global, names: &[&str]) -> Result<bool, AllocError>
    ensures { IfOk result (λ answer. IsTrue answer
        ↔ AllPairs (λ one other. one ≢ other) (map (λ name. name.now) names.now)) }
{
    let mut seen: BTreeSet<&str> = BTreeSet::new(alloc);
    for name in names {
        if !seen.insert(*name)? {
            return Ok(false);
        }
    }
    Ok(true)
}
