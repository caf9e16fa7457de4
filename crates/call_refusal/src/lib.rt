//! Why an admin call is refused: in lines for standard error, and in one line for a header of the answer, whose form
//! `specs/Reason.antt` says. What is wrong with a body, `mapping_diagnosis` finds.
#![tactic(auto)]

mod methods;
pub mod reason;
pub mod refusal;
pub mod told;
