//! The machine's own files and output, tried: files that are absent, empty, as long as the limit and one byte longer, and a folder
//! are read, and files are written and read back, one of them of more bytes than are read at a time. Each answer is a line of the
//! standard output. Then the whole program runs over these files and this output, and its status is that of this one. No contract can
//! say what a file of the machine holds; here a run shows it.
#![tactic(auto)]

use gt_io::{Files, HostFiles, HostOut, ReadFail, Sink, WriteFail};
use gt_run::top;
use gt_space::Space;
use gt_types::{Bytes, Word};
use std::alloc::{AllocError, Global};
use std::process::ExitCode;

/// The most bytes that are read of a file.
const LIMIT: u64 = 4;

/// The bytes of a long file.
const LONG: usize = 70000;

/// The status where memory or the output fails.
const FAILED: u8 = 1;

fn main(rt: HostRuntime) -> ExitCode {
    let alloc = rt.alloc();
    let mut out = HostOut::new(rt.stdout());
    let mut files = HostFiles::new(rt);
    let Ok(()) = try_all(alloc, &mut files, &mut out) else {
        return ExitCode::from(FAILED);
    };
    match run_script(alloc, &mut files, &mut out) {
        Ok(status) => ExitCode::from(status),
        Err(_) => ExitCode::from(FAILED),
    }
}

// Runs the script under the header, writes how many answers it had and the status with which the program ended, and gives the status.
fn run_script(alloc: Global, files: &mut HostFiles, out: &mut HostOut) -> Result<u8, WriteFail> {
    let Ok(words) = words_of(alloc, &["script.gty", "node.h"]) else {
        return Err(WriteFail::Memory);
    };
    let mut space = Space::empty(alloc);
    let outcome = top(alloc, words.as_slice(), files, out, &mut space);
    let Ok(answers) = outcome.answers.list(alloc) else {
        return Err(WriteFail::Memory);
    };
    let (count, status) = (answers.len(), outcome.status);
    let Ok(line) = format!(in alloc; "{count} answers, status {status}\n") else {
        return Err(WriteFail::Memory);
    };
    out.write_all(line.as_str().as_bytes())?;
    Ok(status)
}

fn words_of(alloc: Global, texts: &[&str]) -> Result<Vec<Word>, AllocError> {
    let mut words = Vec::new(alloc);
    for text in texts {
        words.push(Word::of(alloc, text)?)?;
    }
    Ok(words)
}

// Reads and writes one file after another.
fn try_all(alloc: Global, files: &mut HostFiles, out: &mut HostOut) -> Result<(), WriteFail> {
    for name in [
        "absent",
        "empty",
        "four",
        "five",
        "folder",
        "folder/inside",
        "four/inside",
    ] {
        read_one(alloc, files, out, name)?;
    }
    for (name, bytes) in [
        ("new", b"xyz".as_slice()),
        ("new", b"q"),
        ("new", b""),
        ("folder", b"xyz"),
    ] {
        write_one(alloc, files, out, name, bytes)?;
        read_one(alloc, files, out, name)?;
    }
    try_long(alloc, files, out)
}

// Writes a long file, and says what is read of it.
fn try_long(alloc: Global, files: &mut HostFiles, out: &mut HostOut) -> Result<(), WriteFail> {
    let Ok(bytes) = long_bytes(alloc) else {
        return Err(WriteFail::Memory);
    };
    write_one(alloc, files, out, "long", &bytes)?;
    let Ok(word) = Word::of(alloc, "long") else {
        return Err(WriteFail::Memory);
    };
    let answer = files.read(alloc, &word, LONG as u64);
    match long_line(alloc, &answer, &bytes) {
        Ok(line) => out.write_all(line.as_str().as_bytes()),
        Err(_) => Err(WriteFail::Memory),
    }
}

// The line of an answer to a read of the long file, into which these bytes were written.
fn long_line(
    alloc: Global,
    answer: &Result<Option<Bytes>, ReadFail>,
    written: &[u8],
) -> Result<String, AllocError> {
    match answer {
        Ok(Some(bytes)) => {
            let same = bytes.as_slice() == written;
            format!(in alloc; "read long: {} bytes, as written: {same}\n", bytes.len())
        }
        Ok(None) => format!(in alloc; "read long: absent\n"),
        Err(ReadFail::Memory) => Err(AllocError),
        Err(_) => format!(in alloc; "read long: failed\n"),
    }
}

// The bytes of a long file.
fn long_bytes(alloc: Global) -> Result<Vec<u8>, AllocError> {
    let mut bytes = Vec::new(alloc);
    for i in 0..LONG {
        bytes.push((i % 251) as u8)?;
    }
    Ok(bytes)
}

// Reads a file, and writes what it answered.
fn read_one(
    alloc: Global,
    files: &mut HostFiles,
    out: &mut HostOut,
    name: &str,
) -> Result<(), WriteFail> {
    let Ok(word) = Word::of(alloc, name) else {
        return Err(WriteFail::Memory);
    };
    let answer = files.read(alloc, &word, LIMIT);
    match answer_line(alloc, name, &answer) {
        Ok(line) => out.write_all(line.as_str().as_bytes()),
        Err(_) => Err(WriteFail::Memory),
    }
}

// The line of an answer to a read.
fn answer_line(
    alloc: Global,
    name: &str,
    answer: &Result<Option<Bytes>, ReadFail>,
) -> Result<String, AllocError> {
    match answer {
        Ok(Some(bytes)) => format!(in alloc; "read {name}: {:?}\n", bytes.as_slice()),
        Ok(None) => format!(in alloc; "read {name}: absent\n"),
        Err(ReadFail::TooLong) => format!(in alloc; "read {name}: too long\n"),
        Err(ReadFail::Failed) => format!(in alloc; "read {name}: failed\n"),
        Err(ReadFail::Memory) => Err(AllocError),
    }
}

// Writes a file, and writes what it answered.
fn write_one(
    alloc: Global,
    files: &mut HostFiles,
    out: &mut HostOut,
    name: &str,
    bytes: &[u8],
) -> Result<(), WriteFail> {
    let Ok(word) = Word::of(alloc, name) else {
        return Err(WriteFail::Memory);
    };
    let answer = match files.write(&word, bytes) {
        Ok(()) => "written",
        Err(WriteFail::Failed) => "failed",
        Err(WriteFail::Memory) => return Err(WriteFail::Memory),
    };
    match format!(in alloc; "write {name}: {answer}\n") {
        Ok(line) => out.write_all(line.as_str().as_bytes()),
        Err(_) => Err(WriteFail::Memory),
    }
}
