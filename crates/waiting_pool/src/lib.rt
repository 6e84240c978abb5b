//! The events that wait for their parents, in order of arrival: found by id, and the earliest of those whose parents have
//! all come.
#![tactic(auto)]

mod fault;
mod pool;
mod tables;
mod waiter;

pub use fault::PutFault;
pub use pool::Pool;
pub use waiter::Waiter;
