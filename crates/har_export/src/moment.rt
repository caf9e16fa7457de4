// Moments.
ghost use Rattle.std.specs.Prelude.{◌≡◌, ◌↔◌, ◌*◌, ℕ, pos, List, IfOk, IsTrue};
ghost use Rattle.har_export.specs.Moment.{IsMoment, IsInRange, moment_text};
ghost use Rattle.jiff_core.specs.DateTime.{civil_nanos};
ghost use Rattle.serde_json.specs.Data.{string};
ghost use Rattle.serde_json.specs.View.{view};

use jiff::Timestamp;
use jiff::fmt::temporal::DateTimePrinter;
use jiff_core::Offset;
use jiff_core::civil::DateTime;
use serde_json::Value;
use std::alloc::{AllocError, Global};

/// The last moment, in milliseconds since 1970 began: 9998-12-31T23:59:59.999Z.
pub const LAST_MOMENT: u64 = 253_370_764_799_999;

pub(crate) fn is_in_range(ms: u64) -> bool
    ensures { IsTrue result ↔ IsInRange ms }
{
    ms <= LAST_MOMENT
}

/// The text of a moment.
pub(crate) fn moment_value(alloc: Global, ms: u64) -> Result<Value, AllocError>
    requires { IsInRange ms }
    ensures { IfOk result (λ value. (text : List ℕ) × IsMoment ms text × (view value ≡ string text)) }
{
    shown_value(alloc, clock_at(ms))
}

/// What a clock at UTC shows at a moment.
pub(crate) fn clock_at(ms: u64) -> DateTime
    requires { IsInRange ms }
    ensures { civil_nanos result ≡ pos (ms * 1_000_000) }
{
    Offset::UTC.to_datetime(timestamp(ms).to_plain())
}

/// The text of a moment, by what a clock at UTC shows then.
pub(crate) fn shown_value(alloc: Global, shown: DateTime) -> Result<Value, AllocError>
    ensures { IfOk result (λ value. view value ≡ string (moment_text shown)) }
{
    let text = DateTimePrinter::new()
        .precision(Some(3))
        .datetime_text(shown);
    let mut moment = String::from_str(alloc, text.as_str())?;
    moment.push_str("Z")?;
    Ok(Value::String(moment))
}

fn timestamp(ms: u64) -> Timestamp
    requires { IsInRange ms }
    ensures { result.nanosecond ≡ pos (ms * 1_000_000) }
{
    match Timestamp::from_millisecond(ms as i64) {
        Ok(timestamp) => timestamp,
        Err(_error) => unreachable!(),
    }
}
