//! The program: does over the folders and files of the system what its words ask for (`tsm_server::tsmd`).
#![tactic(auto)]

use session_io::{HostSink, Word};
use std::alloc::AllocError;
use std::env;
use std::io::ErrorKind;
use std::process::ExitCode;
use tsm_server::{HostDesk, OpenGate, Output, Status};

fn main(rt: HostRuntime) -> ExitCode {
    let alloc = rt.alloc();
    let mut desk = HostDesk::new(rt);
    let mut out = HostSink::new(Output::Standard(rt.stdout()));
    let number = match given_words(rt) {
        Ok(words) => tsm_server::tsmd(&rt, alloc, &words, &mut desk, &mut out, &OpenGate),
        Err(AllocError) => tsm_server::end(&mut out, Status::NoMemory),
    };
    ExitCode::from(number)
}

// The words after the program's name. Where one is no text they are none, which are no command.
fn given_words(rt: HostRuntime) -> Result<Vec<Word>, AllocError> {
    let mut words = Vec::new(rt.alloc());
    match env::args(&rt) {
        Ok(texts) => {
            for text in texts.skip(1) {
                words.push(Word { text })?;
            }
            Ok(words)
        }
        Err(error) if error.kind() == ErrorKind::OutOfMemory => Err(AllocError),
        Err(_) => Ok(words),
    }
}
