//! The items of a header as they are written: marked structures and globals with their raw options, typedefs, enums and
//! constants, each with its place. The layer below reads them from tokens, and the layer above resolves their names.
#![tactic(auto)]

mod items;

pub use items::{
    Alias, Combination, Core, Declarator, Enumerator, Item, Items, Keyword, Meaning, Name,
    Parameter, PointedType, RawCache, RawConstant, RawEnum, RawField, RawOption, RawRoot,
    RawStructure, RawType, RawTypedef, Sign, Size, Stars,
};
