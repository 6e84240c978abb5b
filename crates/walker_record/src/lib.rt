//! What a walker keeps of the characters that it walks over: records of runs. A run is a number of nodes that follow one
//! another by their numbers and are alike in both states, the prepared one and that of the text.
#![tactic(auto)]

mod record;

pub use record::Record;
