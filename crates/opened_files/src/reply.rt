//! What a line does once all is read.
use command_texts::refusal::Refusal;

/// What a line does at last: it prints, or stores a file and prints then, or is refused.
#[derive(Debug, Drop)]
pub enum Reply {
    Prints(Vec<u8>),
    Stores {
        out: Vec<u8>,
        name: String,
        bytes: Vec<u8>,
    },
    Refuses(Refusal),
}
