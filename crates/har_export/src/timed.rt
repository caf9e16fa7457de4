// An exchange, and when it was started.
ghost use Rattle.std.specs.Prelude.{◌≡◌, ◌*◌, pos};
ghost use Rattle.jiff_core.specs.DateTime.{civil_nanos};

use jiff_core::civil::DateTime;
use recorder::exchange::SharedExchange;

/// An exchange, and what a clock at UTC showed when it was started.
#[derive(Drop)]
pub(crate) struct Timed {
    pub exchange: SharedExchange,
    pub shown: DateTime,
    ghost at: { civil_nanos shown ≡ pos (exchange.started_ms * 1_000_000) },
}
