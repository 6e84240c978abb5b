//! The words of the editor as bytes: edit scripts, net scripts and versions are read, and ids, versions and characters are
//! printed. What the bytes mean is said in `specs/Scripts.antt` of `ew_model`, in `specs/Versions.antt` of `history_definitions`, and for
//! net scripts in `specs/NetScripts.antt` of `peer_definitions`.
#![tactic(auto)]

pub mod edit;
pub mod laws;
mod line;
pub mod net;
pub mod print;
pub mod script;
pub mod version;
pub mod words;

pub use peer_definitions::text;
