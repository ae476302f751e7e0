//! What went wrong with a script's run, and where: a call gives it as a text, and the top call of `tj-why` takes
//! the words of its command line.
#![tactic(auto)]

mod laws;
mod line;
mod line_word;
mod replies;
mod telling;
mod told;
mod top_call;
mod usage;
mod why;
mod words;

pub use laws::{
    groups_keep_what_follows, groups_tell_each_finding, one_output, texts_tell_findings,
    texts_tell_full,
};
pub use line::{WhyCommand, command_of};
pub use place_laws::places_are_of_tokens;
pub use scene_laws::scenes_tell_lines;
pub use telling::Telling;
pub use told::told_of_text;
pub use top_call::why_words;
pub use words::why_given;

mod full_lines;
mod parsed;
mod place_laws;
mod scene_laws;
