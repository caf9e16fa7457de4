//! The helpers of templates, and the values that they take and give: what the stack of the machine that runs
//! a template's code may hold. A helper is a function of its arguments. It uses `data_tree`, and `base64` and
//! `percent_encoding` for two of the helpers. Definitions: `specs/Values.antt` (values, their kinds, what they print
//! as, whether they count as true), `specs/Texts.antt` (what helpers make of texts) and `specs/Helpers.antt` (what each
//! helper takes and gives).
#![tactic(auto)]

// Values and helpers.
pub mod helper;
pub mod kind;
pub mod limits;
pub mod value;

// What helpers take, give and do.
pub mod apply;
mod count;
pub mod signature;

// What holds of all results.
pub mod laws;
