// What the arguments of the command line ask for: pages, percent and KiB, and then the script and its headers, or `generated` and the
// number of nodes.
use gt_types::{Bytes, Word};
use gt_words::{Call, Script, read_words};
use std::alloc::{AllocError, Global};

/// What the words ask for, or that they are refused.
pub fn answer(alloc: Global, texts: &[Bytes]) -> Result<String, AllocError> {
    let mut words = Vec::new(alloc);
    for text in texts {
        words.push(Word::of(alloc, str::from_utf8(text.as_slice()).unwrap_or("no text"))?)?;
    }
    match read_words(alloc, words.as_slice())? {
        Some(call) => call_text(alloc, &call),
        None => String::from_str(alloc, "refused"),
    }
}

fn call_text(alloc: Global, call: &Call) -> Result<String, AllocError> {
    let settings = call.settings;
    let mut line = format!(in alloc;
        "{} {} {}",
        settings.pages, settings.min_expand, settings.min_heapsize
    )?;
    match &call.script {
        Script::File(name) => {
            line.push_str(" ")?;
            line.push_str(name.as_str())?;
        }
        Script::Generated { n, .. } => line.push_str(format!(in alloc;
            " generated {n}"
        )?.as_str())?,
    }
    for header in call.headers.as_slice() {
        line.push_str(" ")?;
        line.push_str(header.as_str())?;
    }
    Ok(line)
}
