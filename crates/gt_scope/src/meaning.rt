use gt_drafts::Resolved;
use gt_types::Word;

/// What a name of a typedef means.
#[derive(Debug, Drop)]
pub struct TypedefMeaning {
    pub name: Word,
    pub means: Resolved,
}
