//! Errors' codes, values and the data of requests, helpers, templates and stack code.

// Cells of answers.
mod answers;

// Values, the data of requests, and helpers.
pub mod error_codes;
pub mod helpers;
pub mod json_texts;
pub mod requests;
pub mod values;

// What rows give: numbers, and requests with the data that templates see of them.
mod numbers;
mod snapshots;

// Templates and stack code.
pub mod code;
pub mod programs;
pub mod templates;
mod writer;
pub mod writes;
