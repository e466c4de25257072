// Values by their words: an integer, null, @ and a name, or raw: and bytes; { } around the fields of a struct, [ ] around elements,
// and <PLACE > around the active member of a union, or <- > around its common structure.
use crate::leaves::{Leaf, Refusal};
use gt_value::Value;
use sqlite_items::Boxed;
use std::alloc::{AllocError, Global};

// What values stand in.
#[derive(Clone, Copy, PartialEq, Eq)]
enum Form {
    Struct,
    Union(Option<u32>),
    Elements,
}

// A value that is not closed yet, and its parts so far.
#[derive(Drop)]
struct Open {
    form: Form,
    parts: Vec<Value>,
}

impl Form {
    // The form that a word opens.
    fn opened(word: &str) -> Option<Form> {
        match word {
            "{" => Some(Form::Struct),
            "[" => Some(Form::Elements),
            "<-" => Some(Form::Union(None)),
            _ => Some(Form::Union(Some(word.strip_prefix("<")?.parse::<u32>().ok()?))),
        }
    }

    // The word that closes it.
    fn end(self) -> &'static str {
        match self {
            Form::Struct => "}",
            Form::Elements => "]",
            Form::Union(_) => ">",
        }
    }
}

// The value that parts are.
fn value_of(alloc: Global, open: Open) -> Result<Value, Refusal> {
    let Open { form, mut parts } = open;
    match form {
        Form::Struct => Ok(Value::Rec(parts)),
        Form::Elements => Ok(Value::Row(parts)),
        Form::Union(member) => match parts.pop() {
            Some(value) if parts.is_empty() => Ok(union_of(alloc, member, value)?),
            _ => Err(Refusal::Malformed),
        },
    }
}

fn union_of(alloc: Global, member: Option<u32>, value: Value) -> Result<Value, AllocError> {
    Ok(Value::Alt {
        member,
        value: Boxed::new(alloc, value)?,
    })
}

// One more part of the innermost value.
fn add(opened: &mut Vec<Open>, value: Value) -> Result<(), Refusal> {
    match opened.last_mut() {
        Some(open) => Ok(open.parts.push(value)?),
        None => Err(Refusal::Malformed),
    }
}

// The innermost value is whole, if this word closes it.
fn close(alloc: Global, opened: &mut Vec<Open>, word: &str) -> Result<(), Refusal> {
    match opened.pop() {
        Some(open) if open.form.end() == word => {
            let value = value_of(alloc, open)?;
            add(opened, value)
        }
        _ => Err(Refusal::Malformed),
    }
}

fn read_word(alloc: Global, opened: &mut Vec<Open>, word: &str) -> Result<(), Refusal> {
    if let Some(form) = Form::opened(word) {
        opened.push(Open {
            form,
            parts: Vec::new(alloc),
        })?;
        return Ok(());
    }
    match word {
        "}" | "]" | ">" => close(alloc, opened, word),
        _ => {
            let leaf = Leaf::read(alloc, word)?;
            add(opened, leaf.value(alloc)?)
        }
    }
}

/// The values that words say, one after another.
pub fn read_values(alloc: Global, text: &str) -> Result<Vec<Value>, Refusal> {
    let outside = Open {
        form: Form::Elements,
        parts: Vec::new(alloc),
    };
    let mut opened = vec![in alloc; outside]?;
    for word in text.split(' ') {
        if !word.is_empty() {
            read_word(alloc, &mut opened, word)?;
        }
    }
    match opened.pop() {
        Some(open) if opened.is_empty() => Ok(open.parts),
        _ => Err(Refusal::Malformed),
    }
}

/// The value that words say.
pub fn read_value(alloc: Global, text: &str) -> Result<Value, Refusal> {
    let mut values = read_values(alloc, text)?;
    match values.pop() {
        Some(value) if values.is_empty() => Ok(value),
        _ => Err(Refusal::Malformed),
    }
}
