//! Net scripts are read: the lines that say what peers do and which packets arrive. What the bytes mean is said in
//! `specs/NetScripts.antt` of `peer_definitions`.

mod line;
mod parts;
pub mod script;
mod verb;

pub use peer_definitions::net_step as step;
