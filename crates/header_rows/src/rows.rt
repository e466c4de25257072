// The table taken apart into its rows.

use std::alloc::{AllocError, Global};
use std::fmt::Write;

/// A row: the header as it stands in the table, the texts that it parts into, and their answer. That of a fault has the place
/// that is marked after its number, as `12 at 1:24`: the file, from 1, and the byte.
#[derive(Debug, Drop)]
pub struct Row {
    pub header: String,
    pub texts: Vec<String>,
    pub answer: String,
}

/// The rows of a table. Lines that are not indented stand between them.
pub fn rows_of(alloc: Global, table: &str) -> Result<Vec<Row>, AllocError> {
    let mut rows = Vec::new(alloc);
    let mut lines = Vec::new(alloc);
    for line in table.lines() {
        let Some(line) = line.strip_prefix("    ") else {
            continue;
        };
        match line.strip_prefix("  = ") {
            None => lines.push(line)?,
            Some(answer) => {
                rows.push(row_of(alloc, lines.join(alloc, "\n")?, answer)?)?;
                lines.clear();
            }
        }
    }
    Ok(rows)
}

// A row of its two parts. `~` stands between two texts, and `^` before the place of a fault.
fn row_of(alloc: Global, header: String, answer: &str) -> Result<Row, AllocError> {
    let mut texts = Vec::new(alloc);
    let mut answer = String::from_str(alloc, answer)?;
    let mut file = 0u32;
    for text in header.split('~') {
        file = file.saturating_add(1);
        match text.split_once('^') {
            None => texts.push(String::from_str(alloc, text)?)?,
            Some((before, following)) => {
                write!(answer, " at {file}:{}", before.len())?;
                texts.push(format!(in alloc; "{before}{following}")?)?;
            }
        }
    }
    Ok(Row {
        header,
        texts,
        answer,
    })
}
