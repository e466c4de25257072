// What options say of a type.
use gt_types::Expr;

/// What the options of a field or a root say of its type: the expressions of `length`, `string_length` and `desc`, and whether
/// `atomic`, `maybe_undef` and `reorder` stand there.
#[derive(Drop)]
pub struct TypeOptions {
    pub length: Option<Expr>,
    pub string_length: Option<Expr>,
    pub desc: Option<Expr>,
    pub atomic: bool,
    pub maybe_undef: bool,
    pub reorder: bool,
}
