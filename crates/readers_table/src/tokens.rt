// Tokens as `I0-3`, constants as `D8-9=5`, and a fault as `F2@7`, with spaces between them.
ghost use Rattle.std.specs.Prelude.{◌<◌, ◌^◌, length};

use gt_lex::{Define, Kind, Lexed, Token, lex};
use gt_types::{Fault, Stop};
use std::alloc::{AllocError, Global};

/// What a text is read as, as the text of file 7.
pub fn answer(alloc: Global, text: &[u8]) -> Result<String, AllocError>
    requires { length text.now < 2 ^ 32 }
{
    match lex(alloc, 7, text) {
        Ok(lexed) => lexed_text(alloc, &lexed),
        Err(
            Stop::At(
                Fault {
                    number,
                    file: 7,
                    at,
                },
            ),
        ) => format!(in alloc; "F{number}@{at}"),
        Err(Stop::At(_)) => String::from_str(alloc, "a fault of another file"),
        Err(Stop::Memory) => Err(AllocError),
    }
}

fn lexed_text(alloc: Global, lexed: &Lexed) -> Result<String, AllocError> {
    let mut line = String::new(alloc);
    for Token { kind, start, end } in lexed.tokens.as_slice() {
        let letter = letter(*kind);
        add(
            &mut line,
            format!(in alloc; "{letter}{start}-{end}")?.as_str(),
        )?;
    }
    for Define { start, end, value } in lexed.defines.as_slice() {
        add(
            &mut line,
            format!(in alloc; "D{start}-{end}={value}")?.as_str(),
        )?;
    }
    Ok(line)
}

// Adds a part to a line, after a space where it is not the first.
fn add(line: &mut String, part: &str) -> Result<(), AllocError> {
    line.push_str(if line.is_empty() { "" } else { " " })?;
    line.push_str(part)?;
    Ok(())
}

fn letter(kind: Kind) -> char {
    match kind {
        Kind::Ident => 'I',
        Kind::Number => 'N',
        Kind::Quoted => 'Q',
        Kind::CharLit => 'C',
        Kind::Punct => 'P',
    }
}
