// The exchanges of a recording.
ghost use Rattle.std.specs.Prelude.{◌≡◌, ◌++◌, [], ◌∷◌, IfOk, OnOk, OnErr};

use crate::exchange::SharedExchange;
use std::alloc::{AllocError, Global};
use std::marker::Model;

/// Exchanges in the order in which they were taken, which contracts see as a list.
#[derive(Drop)]
pub struct Exchanges {
    items: Vec<SharedExchange>,
}

impl Model for Exchanges {
    ghost use Rattle.std.specs.Prelude.{List};
    ghost use Rattle.recorder.specs.declared.exchange.Exchange.{Exchange};

    ghost Value = { List Exchange };

    ghost view = { λ e. e.items.items };
}

impl Exchanges {
    pub fn new(alloc: Global) -> Exchanges
        ensures { result ≡ [] }
    {
        Exchanges {
            items: Vec::new(alloc),
        }
    }

    pub fn as_slice(&self) -> &[SharedExchange]
        ensures { result.now ≡ self.now }
    {
        self.items.as_slice()
    }

    pub(crate) fn push(&mut self, exchange: SharedExchange) -> Result<(), AllocError>
        ensures ok { OnOk result (self.new ≡ self.old ++ exchange ∷ []) }
        ensures err { OnErr result (self.new ≡ self.old) }
    {
        Ok(self.items.push(exchange)?)
    }

    /// Shares the exchanges.
    pub fn try_clone(&self) -> Result<Exchanges, AllocError>
        ensures { IfOk result (λ copy. copy ≡ self.now) }
    {
        let mut items = Vec::with_capacity(*self.items.allocator(), self.items.len())?;
        for item in self.items.as_slice() {
            items.push(item.clone()?)?;
        }
        Ok(Exchanges { items })
    }
}
