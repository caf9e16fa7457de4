// Equal keys of a list as groups: for each key which of its group it is, of how many, and which of the larger groups
// that is. Its contracts cite `specs/Groups.antt`.
#![tactic(auto)]

pub mod place;
pub mod places;
