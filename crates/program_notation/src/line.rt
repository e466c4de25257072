// One line, word by word.
use crate::refusal::Refusal;
use gt_types::{List, Word};
use std::alloc::{AllocError, Global};

/// The words of a line that were not read yet, the next one last. Words are separated by spaces; a round bracket is a word.
#[derive(Drop)]
pub struct Line {
    words: Vec<Word>,
}

impl Line {
    pub fn of(alloc: Global, text: &str) -> Result<Line, AllocError> {
        let mut words = Vec::new(alloc);
        for part in text.split(' ') {
            cut(alloc, part, &mut words)?;
        }
        words.reverse();
        Ok(Line { words })
    }

    /// The next word, which is then read.
    pub fn next(&mut self) -> Result<Word, Refusal> {
        match self.words.pop() {
            Some(word) => Ok(word),
            None => Err(Refusal::TooShort),
        }
    }

    /// Whether this is the next word, which is then read.
    pub fn takes(&mut self, text: &str) -> bool {
        match self.words.last() {
            Some(word) if word.as_str() == text => {
                self.words.pop();
                true
            }
            _ => false,
        }
    }

    /// Refuses what stands after the line's end.
    pub fn end(&self) -> Result<(), Refusal> {
        if self.words.is_empty() {
            Ok(())
        } else {
            Err(Refusal::TooLong)
        }
    }

    /// The next word as a number.
    pub fn number(&mut self) -> Result<i64, Refusal> {
        match self.next()?.as_str().parse::<i64>() {
            Ok(number) => Ok(number),
            Err(_) => Err(Refusal::BadNumber),
        }
    }

    /// The next word as names with dots between them; none where there is no word.
    pub fn steps(&mut self, alloc: Global) -> Result<List<Word>, Refusal> {
        match self.words.pop() {
            None => Ok(List::new(alloc)),
            Some(word) => Ok(names(alloc, word.as_str())?),
        }
    }
}

/// The names of a text, with dots between them.
pub fn names(alloc: Global, text: &str) -> Result<List<Word>, AllocError> {
    let mut names = List::new(alloc);
    for name in text.split('.') {
        names.push(Word::of(alloc, name)?)?;
    }
    Ok(names)
}

// Adds the words of a text without spaces.
fn cut(alloc: Global, text: &str, words: &mut Vec<Word>) -> Result<(), AllocError> {
    let mut word = String::new(alloc);
    for c in text.chars() {
        take(alloc, c, &mut word, words)?;
    }
    add(alloc, word.as_str(), words)
}

// Takes a character of such a text. A bracket ends the word that was read so far.
fn take(
    alloc: Global,
    c: char,
    word: &mut String,
    words: &mut Vec<Word>,
) -> Result<(), AllocError> {
    match c {
        '(' => end_by(alloc, "(", word, words),
        ')' => end_by(alloc, ")", word, words),
        _ => word.push(c),
    }
}

// Adds the word that was read so far, and the bracket after it.
fn end_by(
    alloc: Global,
    bracket: &str,
    word: &mut String,
    words: &mut Vec<Word>,
) -> Result<(), AllocError> {
    add(alloc, word.as_str(), words)?;
    word.clear();
    add(alloc, bracket, words)
}

// Adds a word, where it has a character.
fn add(alloc: Global, text: &str, words: &mut Vec<Word>) -> Result<(), AllocError> {
    if !text.is_empty() {
        words.push(Word::of(alloc, text)?)?;
    }
    Ok(())
}
