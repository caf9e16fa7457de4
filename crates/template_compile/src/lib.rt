//! The compiler: from a template's tree to stack code. It uses `template_tree`, `template_tags` (the expressions of a
//! tree) and `template_code`. The contract of `compile` cites `specs/Compiled.antt` (the code of each node) and
//! `Correct` (that it writes what the template means).
#![tactic(auto)]

pub mod compiler;
mod draft;
pub mod error;
mod expressions;
mod kinds;
mod length;
