use gt_expr::RawExpr;
use gt_types::{Bytes, List, Word};

/// A name of a header: its characters, and the byte offset at which it stands.
#[derive(Debug, Drop)]
pub struct Name {
    pub word: Word,
    pub at: u32,
}

/// What a header declares: its marked structures and globals, typedefs and enums in the order of the text, and its constants
/// `#define NAME INTEGER` in their order.
#[derive(Debug, Drop)]
pub struct Items {
    pub items: List<Item>,
    pub constants: List<RawConstant>,
}

/// An item of a header.
#[derive(Debug, Drop)]
pub enum Item {
    Structure(RawStructure),
    Root(RawRoot),
    Cache(RawCache),
    Typedef(RawTypedef),
    Enum(RawEnum),
}

/// A constant `#define NAME INTEGER`.
#[derive(Debug, Drop)]
pub struct RawConstant {
    pub name: Name,
    pub value: i64,
}

/// A marked `struct` or `union`: its tag, the options of its marker, its fields in order, and the name that it declares
/// where it is a `typedef`.
#[derive(Debug, Drop)]
pub struct RawStructure {
    pub is_union: bool,
    pub tag: Name,
    pub options: List<RawOption>,
    pub fields: List<RawField>,
    pub alias: Option<Alias>,
}

/// Fields of one type: the type, and what declares each of them.
#[derive(Debug, Drop)]
pub struct RawField {
    pub ty: RawType,
    pub declarators: List<Declarator>,
}

/// What declares a field: a pointer to a function, or else a name after stars with the texts of its bounds and of its bit
/// count; and the options of its marker.
#[derive(Debug, Drop)]
pub struct Declarator {
    pub is_function: bool,
    pub stars: Stars,
    pub options: List<RawOption>,
    pub name: Name,
    pub bounds: List<Bytes>,
    pub bits: Option<Bytes>,
}

/// A marked global that is no cache.
#[derive(Debug, Drop)]
pub struct RawRoot {
    pub options: List<RawOption>,
    pub ty: RawType,
    pub stars: Stars,
    pub name: Name,
    pub bounds: List<Bytes>,
}

/// A marked global `hash_map<K, V> *`.
#[derive(Debug, Drop)]
pub struct RawCache {
    pub options: List<RawOption>,
    pub key: PointedType,
    pub value: PointedType,
    pub name: Name,
}

/// A type and the stars after it.
#[derive(Debug, Drop)]
pub struct PointedType {
    pub ty: RawType,
    pub stars: Stars,
}

/// How many stars stand after a type.
#[derive(Clone, Copy, Debug, PartialEq, Eq)]
pub enum Stars {
    Zero,
    One,
    Two,
    More,
}

/// An option of a marker, as it is written.
#[derive(Debug, Drop)]
pub struct RawOption {
    pub name: Name,
    pub parameter: Parameter,
}

/// The parameter of an option: none, which an empty text is too; the expression that its text is, where the option takes one;
/// or the text as it is.
#[derive(Debug, Drop)]
pub enum Parameter {
    Absent,
    Expression(RawExpr),
    Text(Bytes),
}

/// A type as it is written.
#[derive(Debug, Drop)]
pub enum RawType {
    /// A combination of words such as `unsigned long`.
    Words(Combination),
    /// `unsigned HOST_WIDE_INT`.
    UnsignedHostWide,
    /// `struct NAME`, `union NAME`, `enum NAME`, or `ENUM_BITFIELD (NAME)`, which is the enum.
    Tagged { keyword: Keyword, tag: Name },
    /// A name.
    Named(Name),
}

/// The keyword before a tag.
#[derive(Clone, Copy, Debug, PartialEq, Eq)]
pub enum Keyword {
    Struct,
    Union,
    Enum,
}

/// The words of a type of C: at most one of sign, a size of `short`, `long` or `long long`, and at most one other word.
#[derive(Clone, Copy, Debug, PartialEq, Eq)]
pub struct Combination {
    pub sign: Sign,
    pub size: Size,
    pub core: Core,
}

/// Whether `signed` or `unsigned` stands in a combination.
#[derive(Clone, Copy, Debug, PartialEq, Eq)]
pub enum Sign {
    Plain,
    Signed,
    Unsigned,
}

/// Whether `short` or `long` stands in a combination, and how often.
#[derive(Clone, Copy, Debug, PartialEq, Eq)]
pub enum Size {
    Plain,
    Short,
    Long,
    LongLong,
}

/// The other word of a combination.
#[derive(Clone, Copy, Debug, PartialEq, Eq)]
pub enum Core {
    Plain,
    Int,
    Char,
    Bool,
    Float,
    Double,
    Void,
}

/// A `typedef` that is not marked: what it means, and the names that it declares.
#[derive(Debug, Drop)]
pub struct RawTypedef {
    pub means: Meaning,
    pub names: List<Alias>,
}

/// A name that a `typedef` declares, after stars.
#[derive(Debug, Drop)]
pub struct Alias {
    pub stars: Stars,
    pub name: Name,
}

/// What stands before the names of a `typedef`.
#[derive(Debug, Drop)]
pub enum Meaning {
    /// A type.
    Type(RawType),
    /// `struct` or `union` with a body, whose fields are not read.
    Body { keyword: Keyword, tag: Option<Name> },
    /// An enum with its constants.
    Enum(RawEnum),
    /// Anything else: the one name is opaque.
    Opaque,
}

/// An enum with its constants in order.
#[derive(Debug, Drop)]
pub struct RawEnum {
    pub tag: Option<Name>,
    pub constants: List<Enumerator>,
}

/// A piece of the body of an enum.
#[derive(Debug, Drop)]
pub enum Enumerator {
    /// `NAME`.
    Counted(Name),
    /// `NAME = text`.
    Valued { name: Name, text: Bytes },
    /// Another piece that begins with a name: the constant is undefined.
    Undefined(Name),
    /// A piece that begins with no name.
    Passed,
}
