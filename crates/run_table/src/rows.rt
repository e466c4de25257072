// The table, taken apart. Its parts are separated by blank lines, and a line of a part begins with what it says:
//
//     # TEXT               a comment; the first one of a row says what the row shows
//     words WORD WORD ..   the arguments of the command line, separated by single spaces
//     file NAME            a file, whose lines follow
//     filled NAME N        a file of N spaces
//     reads N N ..         the reads of files that fail, counted from 1
//     writes N N ..        the writes of the output that fail, counted from 1
//     bytes ADDRESS N      after the run, a line with the N bytes of the space at a decimal address is written after the output
//     status N             the status that is expected
//     output               what is expected to be written, whose lines follow
//     | LINE               a line of the file or of the output before it
//     times N | LINE       such a line N times, with the numbers 0, 1, .. in place of each #; ` / ` separates several lines
//     long N | LINE        such a line, with N letters x in place of each #
//
// A part with words, a status and an output is a row. One with files alone says which files all rows after it share.
use crate::running::File;
use gt_types::Word;
use std::alloc::{AllocError, Global};

/// A row of the table.
#[derive(Drop)]
pub struct Row {
    pub shows: String,
    pub words: Vec<Word>,
    pub files: Vec<File>,
    pub failing: Failing,
    pub look: Option<Look>,
    pub status: u8,
    pub output: String,
}

/// The calls that fail, counted from 1.
#[derive(Drop)]
pub struct Failing {
    pub reads: Vec<u64>,
    pub writes: Vec<u64>,
}

/// The bytes of the space that a row looks at after its run.
#[derive(Clone, Copy)]
pub struct Look {
    pub address: u64,
    pub count: u32,
}

/// A part of the table.
#[derive(Drop)]
pub enum Part {
    Row(Row),
    /// The files that all rows after it share.
    Shared(Vec<File>),
    /// A comment alone.
    Nothing,
    /// A part with a line that says nothing.
    Misspelled,
}

// What the lines of a part said so far.
#[derive(Drop)]
struct Lines {
    shows: Option<String>,
    words: Option<Vec<Word>>,
    files: Vec<File>,
    failing: Failing,
    look: Option<Look>,
    status: Option<u8>,
    output: Option<String>,
}

/// Reads a part of the table. It fails only if memory runs out.
pub fn read_part(alloc: Global, text: &str) -> Result<Part, AllocError> {
    let mut lines = Lines {
        shows: None,
        words: None,
        files: Vec::new(alloc),
        failing: Failing {
            reads: Vec::new(alloc),
            writes: Vec::new(alloc),
        },
        look: None,
        status: None,
        output: None,
    };
    for line in text.lines() {
        if !lines.add(alloc, line)? {
            return Ok(Part::Misspelled);
        }
    }
    Ok(lines.part())
}

impl Lines {
    // Adds a line, and says whether it says something.
    fn add(&mut self, alloc: Global, line: &str) -> Result<bool, AllocError> {
        let (keyword, rest) = line.split_once(' ').unwrap_or((line, ""));
        if keyword == "|" {
            let line = format!(in alloc; "{rest}\n")?;
            self.add_text(line.as_str())
        } else if keyword == "times" {
            self.add_times(alloc, rest)
        } else if keyword == "long" {
            self.add_long(alloc, rest)
        } else if keyword == "file" {
            self.add_file(alloc, rest, 0)
        } else if keyword == "filled" {
            self.add_filled(alloc, rest)
        } else if keyword == "reads" {
            add_numbers(&mut self.failing.reads, rest)
        } else if keyword == "writes" {
            add_numbers(&mut self.failing.writes, rest)
        } else {
            self.add_rest(alloc, keyword, rest)
        }
    }

    // Adds a line of which a row has one.
    fn add_rest(&mut self, alloc: Global, keyword: &str, rest: &str) -> Result<bool, AllocError> {
        if keyword == "#" {
            if self.shows.is_none() {
                self.shows = Some(String::from_str(alloc, rest)?);
            }
            Ok(true)
        } else if keyword == "words" {
            self.words = Some(words_of(alloc, rest)?);
            Ok(true)
        } else if keyword == "bytes" {
            self.look = look_of(rest);
            Ok(self.look.is_some())
        } else if keyword == "status" {
            self.status = rest.parse::<u8>().ok();
            Ok(self.status.is_some())
        } else if keyword == "output" {
            self.output = Some(String::new(alloc));
            Ok(true)
        } else {
            Ok(false)
        }
    }

    fn add_file(&mut self, alloc: Global, name: &str, spaces: u32) -> Result<bool, AllocError> {
        let mut text = String::new(alloc);
        for _ in 0..spaces {
            text.push(' ')?;
        }
        self.files.push(File {
            name: Word::of(alloc, name)?,
            text,
        })?;
        Ok(true)
    }

    fn add_filled(&mut self, alloc: Global, rest: &str) -> Result<bool, AllocError> {
        let Some((name, count)) = rest.split_once(' ') else {
            return Ok(false);
        };
        match count.parse::<u32>() {
            Ok(count) => self.add_file(alloc, name, count),
            Err(_) => Ok(false),
        }
    }

    fn add_times(&mut self, alloc: Global, rest: &str) -> Result<bool, AllocError> {
        let Some((count, line)) = rest.split_once(" | ") else {
            return Ok(false);
        };
        match count.parse::<u32>() {
            Ok(count) => self.add_text(numbered(alloc, count, line)?.as_str()),
            Err(_) => Ok(false),
        }
    }

    fn add_long(&mut self, alloc: Global, rest: &str) -> Result<bool, AllocError> {
        let Some((count, line)) = rest.split_once(" | ") else {
            return Ok(false);
        };
        match count.parse::<u32>() {
            Ok(count) => self.add_text(lengthened(alloc, count, line)?.as_str()),
            Err(_) => Ok(false),
        }
    }

    // Adds a text to the output, or to the last file where no output is begun.
    fn add_text(&mut self, added: &str) -> Result<bool, AllocError> {
        if let Some(text) = &mut self.output {
            text.push_str(added)?;
            return Ok(true);
        }
        if let Some(file) = self.files.last_mut() {
            file.text.push_str(added)?;
            return Ok(true);
        }
        Ok(false)
    }

    fn part(self) -> Part {
        let Lines {
            shows,
            words,
            files,
            failing,
            look,
            status,
            output,
        } = self;
        match (shows, words, status, output) {
            (Some(shows), Some(words), Some(status), Some(output)) => Part::Row(Row {
                shows,
                words,
                files,
                failing,
                look,
                status,
                output,
            }),
            (_, None, None, None) if files.is_empty() => Part::Nothing,
            (_, None, None, None) => Part::Shared(files),
            _ => Part::Misspelled,
        }
    }
}

// Adds the numbers of a line, and says whether it has nothing else.
fn add_numbers(numbers: &mut Vec<u64>, line: &str) -> Result<bool, AllocError> {
    for word in line.split(' ') {
        match word.parse::<u64>() {
            Ok(number) => numbers.push(number)?,
            Err(_) => return Ok(false),
        }
    }
    Ok(true)
}

// An address and how many bytes to look at there.
fn look_of(rest: &str) -> Option<Look> {
    let (address, count) = rest.split_once(' ')?;
    Some(Look {
        address: address.parse::<u64>().ok()?,
        count: count.parse::<u32>().ok()?,
    })
}

// The words of a line, of which an empty one has none.
fn words_of(alloc: Global, line: &str) -> Result<Vec<Word>, AllocError> {
    let mut words = Vec::new(alloc);
    if line.is_empty() {
        return Ok(words);
    }
    for word in line.split(' ') {
        words.push(Word::of(alloc, word)?)?;
    }
    Ok(words)
}

// Lines so many times, each time with its number in place of each `#`.
fn numbered(alloc: Global, count: u32, lines: &str) -> Result<String, AllocError> {
    let mut text = String::new(alloc);
    for number in 0..count {
        let number = format!(in alloc; "{number}")?;
        push_lines(&mut text, lines, number.as_str())?;
    }
    Ok(text)
}

// A line with so many letters in place of each `#`.
fn lengthened(alloc: Global, count: u32, line: &str) -> Result<String, AllocError> {
    let mut letters = String::new(alloc);
    for _ in 0..count {
        letters.push('x')?;
    }
    let mut text = String::new(alloc);
    push_line(&mut text, line, letters.as_str())?;
    Ok(text)
}

fn push_lines(text: &mut String, lines: &str, number: &str) -> Result<(), AllocError> {
    for line in lines.split(" / ") {
        push_line(text, line, number)?;
    }
    Ok(())
}

fn push_line(text: &mut String, line: &str, number: &str) -> Result<(), AllocError> {
    let mut pieces = line.split('#');
    if let Some(first) = pieces.next() {
        text.push_str(first)?;
    }
    for piece in pieces {
        text.push_str(number)?;
        text.push_str(piece)?;
    }
    text.push('\n')
}
