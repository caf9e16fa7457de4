// One request: its content is gathered, and it is answered at once, or once what is pending has come.
pub mod content_error;
pub mod gathering;
pub mod patience;
pub mod pending;
pub mod progress;
mod refusal;
pub mod service;
