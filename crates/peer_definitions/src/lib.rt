//! Words on peers that several crates speak of: the frames that they send each other, how a frame is spelled and how bytes are cut
//! into frames, and what is answered to a frame; the steps of a net script, how they are written, and what each does; and the
//! histories that three peers make by numbers drawn from a seed. They are definitions, which stand in the crate's folder `specs`,
//! and the types that these speak of.
#![tactic(auto)]

pub mod end;
pub mod frame;
pub mod net_step;
pub mod text;
