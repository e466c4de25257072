// The program over the machine on which it runs.
use crate::running::top;
use gt_io::{HostFiles, HostOut};
use gt_space::Space;
use gt_types::Word;
use std::alloc::AllocError;
use std::env::{self, Env};
use std::io::ErrorKind;
use std::process::ExitCode;

/// The status when memory runs out.
const NO_MEMORY: u8 = 9;

/// Runs the program over the machine's own arguments, files and standard output, with an empty space, and gives the status with which
/// it ended. All that is promised of the run stands at `top`.
pub fn run_here(rt: HostRuntime) -> ExitCode {
    let alloc = rt.alloc();
    let Ok(words) = read_words(&rt) else {
        return ExitCode::from(NO_MEMORY);
    };
    let mut out = HostOut::new(rt.stdout());
    let mut files = HostFiles::new(rt);
    let mut space = Space::empty(alloc);
    let outcome = top(alloc, words.as_slice(), &mut files, &mut out, &mut space);
    ExitCode::from(outcome.status)
}

// The arguments after the program's name. If any of them is not valid UTF-8, there are none, and the command line is refused.
fn read_words<R: Env + AllocGlobal>(rt: &R) -> Result<Vec<Word>, AllocError> {
    let alloc = rt.alloc();
    let mut words = Vec::new(alloc);
    match env::args(rt) {
        Ok(args) => {
            for word in args.skip(1) {
                words.push(Word::of(alloc, word.as_str())?)?;
            }
            Ok(words)
        }
        Err(error) => match error.kind() {
            ErrorKind::OutOfMemory => Err(AllocError),
            _ => Ok(words),
        },
    }
}
