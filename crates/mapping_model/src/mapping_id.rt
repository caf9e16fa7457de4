// The id of a mapping.
ghost use Rattle.std.specs.Prelude.{◌≡◌, ◌↔◌, ◌++◌, Some, IfOk, IsTrue, decimal, string_bytes};
ghost use Rattle.uuid.specs.Text.{parsed, hyphenated_text, lower};
ghost use Rattle.mapping_model.specs.MappingId.{id_of_name, event_id, default_id, recording_id};

use itoa::Buffer;
use std::alloc::{AllocError, Global};
use std::marker::Model;
use uuid::Uuid;

/// The id of a mapping: a UUID (RFC 9562), which contracts see as its bytes.
#[derive(Clone, Copy, Debug, PartialEq, Eq, Hash)]
pub struct MappingId {
    uuid: Uuid,
}

impl Model for MappingId {
    ghost use Rattle.std.specs.Prelude.{List, ℕ};

    ghost Value = { List ℕ };

    ghost view = { λ id. id.uuid };

    ghost inverse = { λ bytes. record { uuid = bytes } };
}

impl MappingId {
    /// Reads an id in each form of a UUID's text: hyphenated or not, in braces, as a URN; in either case.
    pub fn parse(text: &str) -> Option<MappingId>
        ensures { result ≡ parsed text.now }
    {
        match Uuid::parse_str(text) {
            Ok(uuid) => Some(MappingId { uuid }),
            Err(_error) => None,
        }
    }

    /// The id of a mapping that was posted without one, by the number of its event.
    pub fn of_event(alloc: Global, number: u64) -> Result<MappingId, AllocError>
        ensures { IfOk result (λ id. id ≡ event_id number) }
    {
        let name = numbered(alloc, "urn:stub:mapping:", number)?;
        Ok(named(name.as_str()))
    }

    /// The id of the `index`-th default mapping, from 0, that has none of its own.
    pub fn of_default(alloc: Global, index: u64) -> Result<MappingId, AllocError>
        ensures { IfOk result (λ id. id ≡ default_id index) }
    {
        let name = numbered(alloc, "urn:stub:default:", index)?;
        Ok(named(name.as_str()))
    }

    /// The id of the `index`-th recorded mapping, from 0, by the number of the event that stopped the recording.
    pub fn of_recording(alloc: Global, stop: u64, index: u64) -> Result<MappingId, AllocError>
        ensures { IfOk result (λ id. id ≡ recording_id stop index) }
    {
        let mut recording = numbered(alloc, "urn:stub:recording:", stop)?;
        recording.push_str(":")?;
        let name = numbered(alloc, recording.as_str(), index)?;
        Ok(named(name.as_str()))
    }

    /// Its text, hyphenated and in lower case.
    pub fn hyphenated(self, alloc: Global) -> Result<String, AllocError>
        ensures text { IfOk result (λ text. string_bytes text ≡ hyphenated_text lower self) }
        ensures reads_back { IfOk result (λ text. parsed (string_bytes text) ≡ Some self) }
    {
        let mut buffer = Uuid::encode_buffer();
        let text = self.uuid.hyphenated().encode_lower(&mut buffer);
        String::from_str(alloc, text)
    }

    pub fn same(self, other: MappingId) -> bool
        ensures { IsTrue result ↔ (self ≡ other) }
    {
        self == other
    }
}

fn named(name: &str) -> MappingId
    ensures { result ≡ id_of_name name.now }
{
    MappingId {
        uuid: Uuid::new_v5(&Uuid::NAMESPACE_URL, name.as_bytes()),
    }
}

fn numbered(alloc: Global, prefix: &str, number: u64) -> Result<String, AllocError>
    ensures { IfOk result (λ text. string_bytes text ≡ prefix.now ++ decimal number) }
{
    let mut text = String::from_str(alloc, prefix)?;
    text.push_str(Buffer::new().format(number))?;
    Ok(text)
}
