// A path as a value of the data, with its segments and what a path template binds in it.
ghost use Rattle.std.specs.Prelude.{◌≡◌, ◌∷◌, IfOk, option_copied};
ghost use Rattle.std.specs.List.{slice_split};
ghost use Rattle.data_tree.specs.Tree.{text, view, items_view, members_view};
ghost use Rattle.mock_request.specs.Target.{slash, IsRooted};
ghost use Rattle.mock_request.specs.Url.{segments_of, is_slash};
ghost use Rattle.request_data.specs.Grouped.{texts};
ghost use Rattle.request_data.specs.RequestTree.{bound_in, path_tree};

use crate::grouped::firsts;
use data_tree::compact_text::CompactText;
use data_tree::data::Data;
use path_template::path_template::PathTemplate;
use std::alloc::{AllocError, Global};

/// What the template binds in the path.
pub(crate) fn bindings(
    alloc: Global,
    template: Option<&PathTemplate>,
    path: &str,
) -> Result<Vec<(CompactText, Data)>, AllocError>
    ensures { IfOk result (λ made. members_view made.items ≡ bound_in path.now (option_copied template.entry)) }
{
    let Some(template) = template else {
        return Ok(Vec::new(alloc));
    };
    match template.bindings(alloc, path)? {
        Some(pairs) => firsts(alloc, pairs),
        None => Ok(Vec::new(alloc)),
    }
}

/// A path with its segments and what a template names in it.
pub(crate) fn path_data(
    alloc: Global,
    path: &str,
    bindings: Vec<(CompactText, Data)>,
) -> Result<Data, AllocError>
    requires { IsRooted path.now }
    ensures { IfOk result (λ made. view made ≡ path_tree path.now (members_view bindings.items)) }
{
    let text = CompactText::from_str(alloc, path)?;
    Data::named(alloc, text, segments(alloc, path)?, bindings)
}

fn segments(alloc: Global, path: &str) -> Result<Vec<Data>, AllocError>
    requires { IsRooted path.now }
    ensures { IfOk result (λ made. items_view made.items ≡ texts (segments_of path.now)) }
{
    let rest = after_slash(path);
    if rest.is_empty() {
        return Ok(Vec::new(alloc));
    }
    pieces(alloc, rest)
}

fn after_slash(path: &str) -> &str
    requires { IsRooted path.now }
    ensures { path.now ≡ slash ∷ result.now }
{
    path.strip_prefix('/').unwrap_or("")
}

// The pieces between slashes.
fn pieces(alloc: Global, rest: &str) -> Result<Vec<Data>, AllocError>
    ensures { IfOk result (λ made. items_view made.items ≡ texts (slice_split is_slash rest.now)) }
{
    let mut pieces = Vec::new(alloc);
    for piece in rest.split('/') {
        pieces.push(text(alloc, piece)?)?;
    }
    Ok(pieces)
}

fn text(alloc: Global, content: &str) -> Result<Data, AllocError>
    ensures { IfOk result (λ made. view made ≡ text content.now) }
{
    Ok(Data::Text(CompactText::from_str(alloc, content)?))
}
