//! Where a new character stands among those of the tree: the children of each node on each side go by their ids, and a new
//! child stands right behind the subtree of the next lower one.
#![tactic(auto)]

mod chains;
mod child;
mod children;
mod heads;
mod known;
mod leaders;
mod led;
mod line;
mod links;
mod neighbour;
mod places;
mod search;
mod spot;
mod table;
mod ways;

pub use child::{Attached, Side};
pub use neighbour::Place;
pub use table::Siblings;
