// A mapping of the book.

use mapping_model::mapping_id::MappingId;
use plain_text::plain::Same;
use request_match::shared_spec::SharedSpec;

/// A mapping as it was written, under the id that the book knows it by. The id in `spec` is the one that the document
/// gave, if it gave one: it only says where `id` came from.
#[derive(Clone, Drop)]
pub struct Mapping {
    pub id: MappingId,
    pub spec: SharedSpec,
}

impl Same for Mapping {
    fn same(&self, other: &Mapping) -> bool {
        self.id.same(other.id) && self.spec.same(&other.spec)
    }
}
