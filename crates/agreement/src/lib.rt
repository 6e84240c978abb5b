//! Whether two event graphs hold the same events, or such as may be held together.
#![tactic(auto)]

mod alike;
mod nears;
mod sharing;

pub use sharing::{agrees, are_consistent};
