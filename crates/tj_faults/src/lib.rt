//! What is wrong with a text that is no script, in words: the line of its first fault, the source line with a
//! caret, what stands there, and what was wanted; or an object of JSON that says it; and laws of the lines of a text.
#![tactic(auto)]

mod caret;
mod fault_objects;
mod fault_words;
mod fronts;
mod laws;
mod objects;
mod source_lines;
mod texts;
mod wanted;

pub use fault_objects::fault_json;
pub use fault_words::told_fault_text;
pub use laws::{places_stand_in_lines, tokens_stand_in_lines};
pub use objects::{begin_object, quoted};
pub use source_lines::{caret_in, lines_of};
pub use texts::{joined, place_text};
