// The request matcher that a JSON value spells (WireMock's documentation, "Request Matching"), and the JSON value that
// is written for a request matcher. Contracts cite `specs/ValueReading.antt`, `specs/BodyReading.antt` and
// `specs/RequestReading.antt` (which matcher a value spells, field by field) and `specs/RequestWritten.antt`, with
// `specs/ValueWritten.antt` and `specs/BodyWritten.antt` (the value that is written).
#![tactic(auto)]

mod body_reading;
mod body_written;
mod named_reading;
pub mod request_reading;
mod url_reading;
mod value_reading;
mod value_written;
pub mod write_request;
