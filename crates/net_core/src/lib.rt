//! Many replicas in one process: peers edit, and what they say to each other goes in packets, which may be delivered in any
//! order, again, or never. `specs/Machine.antt` of `peer_definitions` says what each step does and prints, or why it is refused.
#![tactic(auto)]

mod comparing;
mod delivery;
mod fault;
mod frames;
pub mod laws;
mod lines;
mod net;
mod packet;
mod peer;
mod places;
mod run;

pub use fault::NetFault;
pub use net::Net;
pub use run::run_script;
