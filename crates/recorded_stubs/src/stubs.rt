// The mappings of a list of exchanges.
ghost use Rattle.std.specs.Prelude.{◌≡◌, true, ◌++◌, length, IfOk, OnOk};
ghost use Rattle.recorder.specs.Stubs.{is_kept, keys_of, mapping_of, mappings_of, numbered, part_of, skipped_of};
ghost use Rattle.recorded_stubs.specs.Inner.Lent.{lent};

use crate::kept::kept_of;
use crate::request::request_of;
use crate::response::response_of;
use crate::scenario::scenario_of;
use bytes::Bytes;
use key_groups::place::Place;
use key_groups::places::places_of;
use mapping_model::mapping_id::MappingId;
use mapping_model::mapping_spec::MappingSpec;
use mapping_model::scenario_spec::ScenarioSpec;
use plain_text::text::Text;
use recorder::exchange::{Exchange, SharedExchange};
use recorder::key::{Key, key_of};
use std::alloc::{AllocError, Global};

/// What a recording gives.
#[derive(Drop)]
pub struct Recorded {
    /// Each with its id, in the order of their exchanges.
    pub mappings: Vec<MappingSpec>,
    /// The bodies of the replies that the mappings were made of, in the same order, which share their bytes.
    pub bodies: Vec<Bytes>,
    /// How many exchanges can't be mappings.
    pub skipped: usize,
}

/// The mappings of the exchanges, by the number of the event that stopped the recording. With `repeats` equal requests
/// become a scenario, else the first of them stands alone. Bodies are copied once.
pub fn stubs_of(
    alloc: Global,
    exchanges: &[SharedExchange],
    captured: &[Text],
    repeats: bool,
    number: u64,
) -> Result<Recorded, AllocError>
    ensures mappings { IfOk result (λ recorded.
        recorded.mappings.items ≡ mappings_of captured.now exchanges.now repeats number) }
    ensures skipped { IfOk result (λ recorded. recorded.skipped ≡ skipped_of captured.now exchanges.now) }
{
    let kept = kept_of(alloc, exchanges, captured)?;
    let keys = keys_of(alloc, kept.as_slice(), captured)?;
    let places = places_of(alloc, keys.as_slice())?;
    let mut mappings = Vec::new(alloc);
    let mut bodies = Vec::new(alloc);
    for index in 0..kept.len() {
        let (exchange, place) = (kept[index], places[index]);
        push_mapping(
            alloc,
            &mut mappings,
            &mut bodies,
            exchange,
            place,
            captured,
            repeats,
            number,
        )?;
    }
    let skipped = exchanges.len() - kept.len();
    Ok(Recorded {
        mappings,
        bodies,
        skipped,
    })
}

fn keys_of<'a>(
    alloc: Global,
    exchanges: &[&'a Exchange],
    captured: &[Text],
) -> Result<Vec<Key<'a>>, AllocError>
    ensures { IfOk result (λ keys. keys.items ≡ keys_of captured.now (lent exchanges.now)) }
{
    let mut keys = Vec::with_capacity(alloc, exchanges.len())?;
    for exchange in exchanges {
        keys.push(key_of(alloc, *exchange, captured)?)?;
    }
    Ok(keys)
}

// Appends the mapping of an exchange and the body of its reply, if it gives one.
fn push_mapping(
    alloc: Global,
    mappings: &mut Vec<MappingSpec>,
    bodies: &mut Vec<Bytes>,
    exchange: &Exchange,
    place: Place,
    captured: &[Text],
    repeats: bool,
    number: u64,
) -> Result<(), AllocError>
    requires { is_kept captured.now exchange.now ≡ true }
    ensures { OnOk result (mappings.new.items ≡ mappings.old.items
        ++ numbered captured.now number (length mappings.old.items) (part_of repeats number exchange.now place)) }
{
    let scenario = if repeats {
        scenario_of(alloc, number, place)?
    } else if place.position == 1 {
        None
    } else {
        return Ok(());
    };
    bodies.push(exchange.reply.body.clone()?)?;
    let index = mappings.len() as u64;
    mappings.push(mapping_of(alloc, exchange, captured, number, index, scenario)?)?;
    Ok(())
}

fn mapping_of(
    alloc: Global,
    exchange: &Exchange,
    captured: &[Text],
    number: u64,
    index: u64,
    scenario: Option<ScenarioSpec>,
) -> Result<MappingSpec, AllocError>
    requires { is_kept captured.now exchange.now ≡ true }
    ensures { IfOk result (λ mapping. mapping ≡ mapping_of captured.now number index exchange.now scenario) }
{
    Ok(MappingSpec {
        id: Some(MappingId::of_recording(alloc, number, index)?),
        name: None,
        priority: None,
        scenario,
        request: request_of(alloc, exchange, captured)?,
        response: response_of(alloc, &exchange.reply)?,
    })
}
