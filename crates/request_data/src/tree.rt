// The data that a template sees of a request.
ghost use Rattle.std.specs.Prelude.{◌≡◌, ◌≤◌, IfOk, OnOk, IfErr, option_copied};
ghost use Rattle.data_tree.specs.Json.{size};
ghost use Rattle.data_tree.specs.RequestData.{root_of};
ghost use Rattle.data_tree.specs.WellFormed.{IsWellFormed};
ghost use Rattle.request_data.specs.RequestTree.{request_tree, IsDataRefusal};

use crate::part::root;
use data_tree::request_data::{DataError, RequestData, SIZE_LIMIT};
use mock_request::snapshot::Snapshot;
use needed_data::needed::Needed;
use path_template::path_template::PathTemplate;
use std::alloc::Global;

/// The data of a request, where it is within `RequestData`'s limit. A path template that the path
/// matches names segments of it, in the fields of `request.path`.
pub fn request_data(
    alloc: Global,
    snapshot: &Snapshot,
    template: Option<&PathTemplate>,
) -> Result<RequestData, DataError>
    ensures tree { IfOk result (λ made. root_of made ≡ request_tree snapshot.now (option_copied template.entry)) }
    ensures within { OnOk result (size (request_tree snapshot.now (option_copied template.entry)) ≤ SIZE_LIMIT) }
    ensures well_formed { IfOk result (λ made. IsWellFormed (root_of made)) }
    ensures refusal { IfErr result (IsDataRefusal (request_tree snapshot.now (option_copied template.entry))) }
{
    // No step at all finds the whole.
    let mut needed = Needed::new();
    needed.add_steps(&[]);
    let Ok(root) = root(alloc, snapshot, template, &needed) else {
        return Err(DataError::OutOfMemory);
    };
    RequestData::new(root)
}
