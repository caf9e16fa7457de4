//! What the search of the router `matchit` finds, where each parameter of its routes is a whole segment of a path: a
//! route that the path fits, and one wherever there is one. `proofs/Fits.antt` says what fits. The laws are lemmas, for
//! a crate with a router; there is no program code.
#![tactic(auto)]
