// What may be asked of a book, and what is answered.
use crate::mapping::Mapping;
use mapping_model::mapping_id::MappingId;
use plain_text::items::Items;
use plain_text::text::Text;
use recorder::exchange::SharedExchange;
use request_match::ready_mapping::ReadyMapping;

/// A change of the book that is asked for: one case for each event but the serve.
#[derive(Drop)]
pub enum BookInput {
    Add(ReadyMapping),
    /// The mapping of this id is to be written anew.
    Edit {
        id: MappingId,
        mapping: ReadyMapping,
    },
    Delete(MappingId),
    DeleteAll,
    ResetMappings,
    ResetAll,
    ResetScenarios,
    SetScenario {
        name: Text,
        state: Text,
    },
    ClearJournal,
    StartRecording {
        /// As it was written: the book judges it.
        target: Text,
        /// The names of the request headers that recorded mappings match.
        captured: Items<Text>,
        /// Whether equal requests become a scenario.
        repeats: bool,
    },
    /// The exchange of the serve with this number.
    Record {
        serve: u64,
        exchange: SharedExchange,
    },
    StopRecording,
}

/// What is answered to a change that was made.
#[derive(Drop)]
pub enum BookAnswer {
    Done,
    /// The mapping that was added or edited, as it is now.
    Mapping(Mapping),
    /// The mappings that were recorded and added, and the number of exchanges that none was made of.
    Recorded {
        mappings: Items<Mapping>,
        skipped: u64,
    },
}
