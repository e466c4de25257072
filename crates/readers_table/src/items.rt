// Items, in one line: a name with its place as `name@15`, options in square brackets before what they belong to, fields and the
// constants of enums in braces.
ghost use Rattle.std.specs.Prelude.{◌<◌, ◌^◌, length};

use gt_expr::RawExpr;
use gt_items::{
    Alias, Combination, Core, Declarator, Enumerator, Item, Items, Keyword, Meaning, Name,
    Parameter, PointedType, RawCache, RawConstant, RawEnum, RawField, RawOption, RawRoot,
    RawStructure, RawType, RawTypedef, Sign, Size, Stars,
};
use gt_lex::lex;
use gt_parse::parse;
use gt_types::{Base, Bytes, Fault, List, Op, Stop};
use std::alloc::{AllocError, Global};

/// What a header is read as: its items and then its constants, or its fault.
pub fn answer(alloc: Global, text: &[u8]) -> Result<String, AllocError>
    requires { length text.now < 2 ^ 32 }
{
    let lexed = match lex(alloc, 7, text) {
        Ok(lexed) => lexed,
        Err(stop) => return stop_text(alloc, stop),
    };
    match parse(alloc, 7, text, &lexed) {
        Ok(found) => items_text(alloc, &found),
        Err(stop) => stop_text(alloc, stop),
    }
}

fn name_text(alloc: Global, name: &Name) -> Result<String, AllocError> {
    format!(in alloc; "{}@{}", name.word.as_str(), name.at)
}

fn str_of(text: &Bytes) -> &str {
    str::from_utf8(text.as_slice()).unwrap_or("no text")
}

fn stars_text(stars: Stars) -> &'static str {
    match stars {
        Stars::Zero => "",
        Stars::One => "*",
        Stars::Two => "**",
        Stars::More => "***",
    }
}

fn keyword_text(keyword: Keyword) -> &'static str {
    match keyword {
        Keyword::Struct => "struct",
        Keyword::Union => "union",
        Keyword::Enum => "enum",
    }
}

fn sign_text(sign: Sign) -> &'static str {
    match sign {
        Sign::Plain => "",
        Sign::Signed => "signed",
        Sign::Unsigned => "unsigned",
    }
}

fn size_text(size: Size) -> &'static str {
    match size {
        Size::Plain => "",
        Size::Short => "short",
        Size::Long => "long",
        Size::LongLong => "long long",
    }
}

fn core_text(core: Core) -> &'static str {
    match core {
        Core::Plain => "",
        Core::Int => "int",
        Core::Char => "char",
        Core::Bool => "bool",
        Core::Float => "float",
        Core::Double => "double",
        Core::Void => "void",
    }
}

fn words_text(alloc: Global, words: &Combination) -> Result<String, AllocError> {
    let mut line = String::new(alloc);
    for word in [
        sign_text(words.sign),
        size_text(words.size),
        core_text(words.core),
    ] {
        line.push_str(if line.is_empty() || word.is_empty() {
            ""
        } else {
            " "
        })?;
        line.push_str(word)?;
    }
    Ok(line)
}

fn type_text(alloc: Global, ty: &RawType) -> Result<String, AllocError> {
    match ty {
        RawType::Words(words) => words_text(alloc, words),
        RawType::UnsignedHostWide => String::from_str(alloc, "unsigned HOST_WIDE_INT"),
        RawType::Tagged { keyword, tag } => {
            format!(in alloc; "{} {}", keyword_text(*keyword), name_text(alloc, tag)?)
        }
        RawType::Named(name) => name_text(alloc, name),
    }
}

fn pointed_text(alloc: Global, pointed: &PointedType) -> Result<String, AllocError> {
    let space = if pointed.stars == Stars::Zero {
        ""
    } else {
        " "
    };
    let ty = type_text(alloc, &pointed.ty)?;
    format!(in alloc; "{ty}{space}{}", stars_text(pointed.stars))
}

fn base_text(base: Base) -> &'static str {
    match base {
        Base::Here => "%h",
        Base::Outer => "%1",
        Base::Outermost => "%0",
    }
}

// The operators that the tables have.
fn op_text(op: Op) -> &'static str {
    match op {
        Op::Add => "+",
        Op::Mul => "*",
        _ => "another",
    }
}

fn expression_text(alloc: Global, tree: &RawExpr) -> Result<String, AllocError> {
    match tree {
        RawExpr::Int(value) => format!(in alloc; "{value}"),
        RawExpr::Named(name) => String::from_str(alloc, name.as_str()),
        RawExpr::Path { base, steps } => {
            let mut path = String::from_str(alloc, base_text(*base))?;
            for step in steps.as_slice() {
                path.push_str(".")?;
                path.push_str(step.as_str())?;
            }
            Ok(path)
        }
        RawExpr::Two { op, a, b } => {
            format!(in alloc;
                "({} {} {})",
                expression_text(alloc, a.get())?,
                op_text(*op),
                expression_text(alloc, b.get())?
            )
        }
        RawExpr::One { .. } | RawExpr::Cond { .. } => String::from_str(alloc, "another"),
    }
}

fn parameter_text(alloc: Global, parameter: &Parameter) -> Result<String, AllocError> {
    match parameter {
        Parameter::Absent => Ok(String::new(alloc)),
        Parameter::Expression(tree) => format!(in alloc; "={}", expression_text(alloc, tree)?),
        Parameter::Text(text) => format!(in alloc; "=\"{}\"", str_of(text)),
    }
}

fn options_text(alloc: Global, options: &List<RawOption>) -> Result<String, AllocError> {
    let mut line = String::new(alloc);
    for option in options.as_slice() {
        line.push_str(if line.is_empty() { "[" } else { ", " })?;
        line.push_str(name_text(alloc, &option.name)?.as_str())?;
        line.push_str(parameter_text(alloc, &option.parameter)?.as_str())?;
    }
    line.push_str(if line.is_empty() { "" } else { "]" })?;
    Ok(line)
}

// The same with a space after them, where there are any.
fn own_options_text(alloc: Global, options: &List<RawOption>) -> Result<String, AllocError> {
    let mut line = options_text(alloc, options)?;
    line.push_str(if line.is_empty() { "" } else { " " })?;
    Ok(line)
}

fn bounds_text(alloc: Global, bounds: &List<Bytes>) -> Result<String, AllocError> {
    let mut line = String::new(alloc);
    for bound in bounds.as_slice() {
        line.push_str("[")?;
        line.push_str(str_of(bound))?;
        line.push_str("]")?;
    }
    Ok(line)
}

fn declarator_text(alloc: Global, declarator: &Declarator) -> Result<String, AllocError> {
    let mut line = format!(in alloc;
        "{}{}{}{}{}",
        if declarator.is_function { "fn " } else { "" },
        stars_text(declarator.stars),
        options_text(alloc, &declarator.options)?,
        name_text(alloc, &declarator.name)?,
        bounds_text(alloc, &declarator.bounds)?
    )?;
    if let Some(bits) = &declarator.bits {
        line.push_str(":")?;
        line.push_str(str_of(bits))?;
    }
    Ok(line)
}

fn field_text(alloc: Global, field: &RawField) -> Result<String, AllocError> {
    let mut line = type_text(alloc, &field.ty)?;
    let mut between = " ";
    for declarator in field.declarators.as_slice() {
        line.push_str(between)?;
        line.push_str(declarator_text(alloc, declarator)?.as_str())?;
        between = ", ";
    }
    Ok(line)
}

fn alias_text(alloc: Global, alias: &Alias) -> Result<String, AllocError> {
    format!(in alloc;
        "{}{}",
        stars_text(alias.stars),
        name_text(alloc, &alias.name)?
    )
}

fn structure_text(alloc: Global, structure: &RawStructure) -> Result<String, AllocError> {
    let mut line = format!(in alloc;
        "{} {} {}",
        if structure.is_union {
            "union"
        } else {
            "struct"
        },
        name_text(alloc, &structure.tag)?,
        own_options_text(alloc, &structure.options)?
    )?;
    let mut between = "{";
    for field in structure.fields.as_slice() {
        line.push_str(between)?;
        line.push_str(field_text(alloc, field)?.as_str())?;
        between = "; ";
    }
    line.push_str("}")?;
    if let Some(alias) = &structure.alias {
        line.push_str(" -> ")?;
        line.push_str(alias_text(alloc, alias)?.as_str())?;
    }
    Ok(line)
}

fn root_text(alloc: Global, root: &RawRoot) -> Result<String, AllocError> {
    format!(in alloc;
        "root {}{} {}{}{}",
        own_options_text(alloc, &root.options)?,
        type_text(alloc, &root.ty)?,
        stars_text(root.stars),
        name_text(alloc, &root.name)?,
        bounds_text(alloc, &root.bounds)?
    )
}

fn cache_text(alloc: Global, cache: &RawCache) -> Result<String, AllocError> {
    format!(in alloc;
        "cache {}<{}, {}> {}",
        own_options_text(alloc, &cache.options)?,
        pointed_text(alloc, &cache.key)?,
        pointed_text(alloc, &cache.value)?,
        name_text(alloc, &cache.name)?
    )
}

fn enumerator_text(alloc: Global, constant: &Enumerator) -> Result<String, AllocError> {
    match constant {
        Enumerator::Counted(name) => name_text(alloc, name),
        Enumerator::Valued { name, text } => {
            format!(in alloc; "{}={}", name_text(alloc, name)?, str_of(text))
        }
        Enumerator::Undefined(name) => format!(in alloc; "{}?", name_text(alloc, name)?),
        Enumerator::Passed => String::from_str(alloc, "-"),
    }
}

// A tag with a space after it, where there is one.
fn tag_text(alloc: Global, tag: &Option<Name>) -> Result<String, AllocError> {
    match tag {
        None => Ok(String::new(alloc)),
        Some(name) => format!(in alloc; "{} ", name_text(alloc, name)?),
    }
}

fn enum_text(alloc: Global, found: &RawEnum) -> Result<String, AllocError> {
    let mut line = format!(in alloc; "enum {}", tag_text(alloc, &found.tag)?)?;
    let mut between = "{";
    for constant in found.constants.as_slice() {
        line.push_str(between)?;
        line.push_str(enumerator_text(alloc, constant)?.as_str())?;
        between = ", ";
    }
    line.push_str("}")?;
    Ok(line)
}

fn meaning_text(alloc: Global, meaning: &Meaning) -> Result<String, AllocError> {
    match meaning {
        Meaning::Type(ty) => type_text(alloc, ty),
        Meaning::Body { keyword, tag } => {
            format!(in alloc; "{} {}{{}}", keyword_text(*keyword), tag_text(alloc, tag)?)
        }
        Meaning::Enum(found) => enum_text(alloc, found),
        Meaning::Opaque => String::from_str(alloc, "opaque"),
    }
}

fn typedef_text(alloc: Global, typedef: &RawTypedef) -> Result<String, AllocError> {
    let mut line = format!(in alloc; "typedef {}", meaning_text(alloc, &typedef.means)?)?;
    let mut between = ": ";
    for alias in typedef.names.as_slice() {
        line.push_str(between)?;
        line.push_str(alias_text(alloc, alias)?.as_str())?;
        between = ", ";
    }
    Ok(line)
}

fn item_text(alloc: Global, item: &Item) -> Result<String, AllocError> {
    match item {
        Item::Structure(structure) => structure_text(alloc, structure),
        Item::Root(root) => root_text(alloc, root),
        Item::Cache(cache) => cache_text(alloc, cache),
        Item::Typedef(typedef) => typedef_text(alloc, typedef),
        Item::Enum(found) => enum_text(alloc, found),
    }
}

fn items_text(alloc: Global, found: &Items) -> Result<String, AllocError> {
    let mut line = String::new(alloc);
    for item in found.items.as_slice() {
        line.push_str(if line.is_empty() { "" } else { " | " })?;
        line.push_str(item_text(alloc, item)?.as_str())?;
    }
    for RawConstant { name, value } in found.constants.as_slice() {
        line.push_str(if line.is_empty() { "" } else { " | " })?;
        line.push_str(format!(in alloc; "constant {}={value}", name_text(alloc, name)?)?.as_str())?;
    }
    Ok(line)
}

fn stop_text(alloc: Global, stop: Stop) -> Result<String, AllocError> {
    match stop {
        Stop::Memory => String::from_str(alloc, "out of memory"),
        Stop::At(
            Fault {
                number,
                file: 7,
                at,
            },
        ) => format!(in alloc; "fault {number} at {at}"),
        Stop::At(_) => String::from_str(alloc, "a fault of another file"),
    }
}
