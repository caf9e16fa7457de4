// The entries of a document, each of which is written by itself.
ghost use Rattle.std.specs.Prelude.{◌≡◌, ◌↔◌, ◌<◌, Some, length, map, IfOk, IsErrOf, slice_get, string_bytes};
ghost use Rattle.har_export.specs.Document.{AreEntries, AreInRange, texts_of};
ghost use Rattle.har_export.specs.Inner.Timed.{text_of, texts_of_timed};
ghost use Rattle.har_export.specs.Moment.{IsInRange};
ghost use Rattle.serde_json.specs.Data.{Items};

use crate::error::HarError;
use crate::har::{are_in_range, entry_started};
use crate::moment::{clock_at, shown_value};
use crate::timed::Timed;
use recorder::exchange::SharedExchange;
use recorder::target::Target;
use std::alloc::{AllocError, Global};
use std::marker::Model;

/// The entries of exchanges with a target, which contracts see as their compact texts. Only references are kept, and
/// moments.
#[derive(Drop)]
pub struct HarEntries {
    target: Target,
    timed: Vec<Timed>,
}

impl Model for HarEntries {
    ghost use Rattle.std.specs.Prelude.{ℕ, List};
    ghost use Rattle.har_export.specs.Inner.Timed.{texts_of_timed};

    ghost Value = { List (List ℕ) };

    ghost view = { λ e. texts_of_timed e.target e.timed.items };
}

impl HarEntries {
    /// An exchange that started too late is reported before any memory is taken.
    pub fn new(
        alloc: Global,
        exchanges: &[SharedExchange],
        target: &Target,
    ) -> Result<HarEntries, HarError>
        ensures texts { IfOk result (λ entries. (items : Items)
            × AreEntries target.now exchanges.now items × (entries ≡ texts_of items)) }
        ensures out_of_range { IsErrOf result HarError.MomentOutOfRange ↔ ¬ (AreInRange exchanges.now) }
    {
        if !are_in_range(exchanges) {
            return Err(HarError::MomentOutOfRange);
        }
        let timed = with_moments(alloc, exchanges)?;
        let target = target.clone()?;
        Ok(HarEntries { target, timed })
    }

    pub fn len(&self) -> usize
        ensures { result ≡ length self.now }
    {
        self.timed.len()
    }

    /// The compact text of the entry.
    pub fn text(&self, alloc: Global, index: usize) -> Result<String, AllocError>
        requires { index < length self.now }
        ensures { IfOk result (λ text. slice_get self.now index ≡ Some (string_bytes text)) }
    {
        timed_text(alloc, &self.target, &self.timed[index])
    }
}

fn with_moments(alloc: Global, exchanges: &[SharedExchange]) -> Result<Vec<Timed>, AllocError>
    requires { AreInRange exchanges.now }
    ensures { IfOk result (λ timed. map (λ t. t.exchange) timed.items ≡ exchanges.now) }
{
    let mut timed = Vec::with_capacity(alloc, exchanges.len())?;
    for shared in exchanges {
        timed.push(timed_exchange(shared)?)?;
    }
    Ok(timed)
}

fn timed_exchange(shared: &SharedExchange) -> Result<Timed, AllocError>
    requires { IsInRange shared.now.started_ms }
    ensures { IfOk result (λ timed. timed.exchange ≡ shared.now) }
{
    Ok(Timed {
        exchange: shared.clone()?,
        shown: clock_at(shared.exchange().started_ms),
    })
}

fn timed_text(alloc: Global, target: &Target, timed: &Timed) -> Result<String, AllocError>
    ensures { IfOk result (λ text. string_bytes text ≡ text_of target.now timed.now) }
{
    let started = shown_value(alloc, timed.shown)?;
    entry_started(alloc, target, timed.exchange.exchange(), started)?.to_string(alloc)
}
