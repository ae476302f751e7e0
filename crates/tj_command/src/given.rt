//! The words of the command line.
use std::env;
use std::io::ErrorKind;
use std::rt::Env;

/// What the command line gives.
#[derive(Drop)]
pub enum Given {
    /// The words after the program's name.
    Words(Vec<String>),
    /// One of them isn't text.
    NotText,
    /// Memory could not be had.
    Oom,
}

/// The words after the program's name.
pub fn words_given(rt: &(impl Env + AllocGlobal)) -> Given {
    match env::args(rt) {
        Ok(args) => match args.skip(1).collect(rt.alloc()) {
            Ok(words) => Given::Words(words),
            Err(_out_of_memory) => Given::Oom,
        },
        Err(error) if error.kind() == ErrorKind::OutOfMemory => Given::Oom,
        Err(_not_text) => Given::NotText,
    }
}
