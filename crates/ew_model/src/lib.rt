//! The words of the editor: names, ids, events, what is answered about them, limits and steps; and in `specs/` what a
//! history, a version, a text, a verdict, a critical cut, an operation and a touch are. The laws of these definitions
//! are contracts of the functions in `laws`.
#![tactic(auto)]

pub mod event;
pub mod id;
pub mod laws;
pub mod limits;
pub mod name;
pub mod node;
pub mod parents;
pub mod run;
pub mod steps;
pub mod text_op;
pub mod verdict;

pub use std::alloc::AllocError as NoMem;
