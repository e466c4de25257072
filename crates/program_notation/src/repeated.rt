// Lines that stand for many.
use std::alloc::{AllocError, Global};

/// Adds a line to those of a program. `times N LINE | LINE` adds the lines N times, with the number, from 1, where they
/// have `$`, and the next number where they have `~`. Where N is none, the line stays as it is, and is refused later.
pub fn add_repeated(alloc: Global, text: &str, lines: &mut Vec<String>) -> Result<(), AllocError> {
    if let Some(rest) = text.strip_prefix("times ")
        && let Some((times, pattern)) = rest.split_once(' ')
        && let Ok(times) = times.parse::<u16>()
    {
        for number in 1..=times {
            add_filled(alloc, pattern, number, lines)?;
        }
        return Ok(());
    }
    lines.push(String::from_str(alloc, text)?)?;
    Ok(())
}

fn add_filled(
    alloc: Global,
    pattern: &str,
    number: u16,
    lines: &mut Vec<String>,
) -> Result<(), AllocError> {
    for line in pattern.split(" | ") {
        lines.push(filled(alloc, line, number)?)?;
    }
    Ok(())
}

fn filled(alloc: Global, line: &str, number: u16) -> Result<String, AllocError> {
    let mut text = String::new(alloc);
    let next = u32::from(number) + 1;
    for c in line.chars() {
        match c {
            '$' => write!(text, "{number}")?,
            '~' => write!(text, "{next}")?,
            _ => text.push(c)?,
        }
    }
    Ok(text)
}
