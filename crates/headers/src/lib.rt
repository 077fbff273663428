// The header of a message. Read: the checks that every message has to pass, and the body past it handed back as a part.
// Written: over a body, with the checksum of both. Every public call is total; what it answers is a definition.
#![tactic(auto)]

mod message;
mod sealing;

pub use message::{body, header};
pub use sealing::{put_header, seal, start_sum};
