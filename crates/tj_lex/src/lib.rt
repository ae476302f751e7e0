//! The tokens of the script language: names, numbers, keywords and marks, each with its position,
//! or the position of the first fault.
#![tactic(auto)]

mod bytes;
mod gap;
pub mod laws;
mod number;
mod place;
mod spelling;
mod token;
mod word;

pub use bytes::MAX_TEXT;
pub use place::Place;
pub use token::{Key, LexFault, Mark, Tok, Token};
pub use word::Word;

mod room;
mod shorts;
mod whole;

pub use shorts::{Kind, Seen, Short, short_tokens};
pub use whole::tokens;
