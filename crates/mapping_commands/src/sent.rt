// The request that is answered.
ghost use Rattle.std.specs.Prelude.{◌≡◌, ◌⊎◌, IfErr, IfOk};
ghost use Rattle.command_output.specs.Lines.{out_of_memory};
ghost use Rattle.mapping_commands.specs.Answering.{IsRequest, RefusesRequest, sent_of};

use command_output::error::CommandError;
use http_header::{HeaderName, HeaderValue};
use mock_request::snapshot::Snapshot;
use std::alloc::Global;

/// A request that is asked for. Its target may be in origin form or in absolute form.
#[derive(Clone, Copy)]
pub struct SentRequest<'a> {
    pub method: &'a str,
    pub target: &'a str,
    pub headers: &'a [(HeaderName, HeaderValue)],
    pub body: &'a [u8],
}

/// The request for the URL of its target.
pub fn snapshot_of(alloc: Global, sent: SentRequest<'_>) -> Result<Snapshot, CommandError>
    ensures ok { IfOk result (IsRequest (sent_of sent.entry)) }
    ensures refusal { IfErr result (λ error. RefusesRequest (sent_of sent.entry) error ⊎ (error ≡ out_of_memory)) }
{
    Ok(Snapshot::new(alloc, sent.method, sent.target, sent.headers, sent.body)?)
}
