use crate::{Number, Steps};
use gt_types::{Bytes, Word};

/// A line of a script. The answer to a quiet line is printed only where it is a refusal.
#[derive(Debug, PartialEq, Eq, Drop)]
pub struct Line {
    pub quiet: bool,
    pub command: Command,
}

/// What a line asks for. The parts of a command are the words of its form, in order.
#[derive(Debug, PartialEq, Eq, Drop)]
pub enum Command {
    /// `new $v T` or `new $v T N`: make an object of the type, with room for `n` elements where it has a tail, and let
    /// the variable mean it.
    New {
        var: Word,
        ty: TypeName,
        n: Option<Number>,
    },
    /// `array $v T N`: make a block of `n` elements of the type.
    Array {
        var: Word,
        ty: TypeName,
        n: Number,
    },
    /// `string $v "text"`: make a block of the text's bytes and one zero.
    Text {
        var: Word,
        text: Bytes,
    },
    /// `block $v N`: make a block of `n` bytes that are never scanned.
    Block {
        var: Word,
        n: Number,
    },
    /// `set PATH VALUE`: store the value at the path.
    Set {
        path: Route,
        value: Given,
    },
    /// `get $v PATH`: answer what stands at the path, and let the variable mean the block that it points to.
    Get {
        var: Word,
        path: Route,
    },
    /// `drop $v`: let the variable mean nothing.
    Drop {
        var: Word,
    },
    /// `print PATH`: print what stands at the path.
    Print {
        path: Route,
    },
    /// `put C $k $v`: let the cache map the object that `key` means to the one that `value` means.
    Put {
        cache: Word,
        key: Word,
        value: Word,
    },
    /// `find C $k`: answer what the cache maps the object to.
    Find {
        cache: Word,
        key: Word,
    },
    /// `collect`: collect where enough was allocated since the last collection.
    Collect,
    /// `collect force`: free the objects that neither a root that is not deletable reaches nor a pair that stays.
    CollectForce,
    /// `save "f" PAGE`: write an image of the heap to the file, with `page` as its preferred page.
    Save {
        file: Word,
        page: Number,
    },
    /// `load "f"`: replace the heap by the file's image.
    Load {
        file: Word,
    },
    /// `tables`: print what the headers declare.
    Tables,
    /// `heap`: print how many objects there are of each size, and their bytes.
    Heap,
    /// `stats`: print the numbers of the collector.
    Stats,
}

/// A type by its name; with `star`, a pointer to it.
#[derive(Debug, PartialEq, Eq, Drop)]
pub struct TypeName {
    pub name: Word,
    pub star: bool,
}

/// A path: a variable, or else a root, by its name, and the steps from there.
#[derive(Debug, PartialEq, Eq, Drop)]
pub struct Route {
    pub variable: bool,
    pub name: Word,
    pub steps: Steps,
}

/// A step of a path: to a field, or to an element counted from 0.
#[derive(Debug, PartialEq, Eq, Drop)]
pub enum Hop {
    Name(Word),
    Index(u64),
}

/// A value that a line gives: an integer, the null pointer, or what a variable means.
#[derive(Debug, PartialEq, Eq, Drop)]
pub enum Given {
    Integer(Number),
    Null,
    Var(Word),
}
