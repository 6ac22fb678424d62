// The program: the words, the files of the working folder and the standard output, handed to the player.
#![tactic(auto)]

use smm_base::{DirStore, StdSink};
use smm_player::play;
use std::process::ExitCode;
use std::rt::Env;
use std::{env, io};

/// The status where there is no memory for the words. Nothing is written then.
const NO_MEMORY: u8 = 8;

/// The status where the words are of no command's form.
const USAGE: u8 = 1;

/// The forms of the commands, for the standard error.
const FORMS: &str = "usage: smmplay step PLATFORM IMAGES SCHEDULE AFTER
       smmplay finish PLATFORM IMAGES SCHEDULE AFTER
       smmplay check PLATFORM IMAGES TRACE
       smmplay make NUMBER N
       smmplay sum NUMBER N";

/// The words behind the program's name. A word that isn't UTF-8 is an error.
fn words<R: Env + AllocGlobal>(rt: &R) -> io::Result<Vec<String>> {
    let words = env::args(rt)?.skip(1).collect(rt.alloc())?;
    Ok(words)
}

fn main(rt: HostRuntime) -> ExitCode {
    let words = match words(&rt) {
        Ok(words) => words,
        Err(error) if error.kind() == io::ErrorKind::OutOfMemory => {
            return ExitCode::from(NO_MEMORY);
        }
        // Words that aren't text are of no command's form, as no words are.
        Err(_) => Vec::new(rt.alloc()),
    };
    let mut store = DirStore::new(&rt);
    let mut out = StdSink::new(&rt);
    let status = play(rt.alloc(), &words, &mut store, &mut out);
    if status == USAGE {
        // A form that isn't told changes no answer.
        let _ = rt.eprintln(FORMS);
    }
    ExitCode::from(status)
}
