// Names of typedefs that mean structures.
ghost use Rattle.std.specs.Prelude.{◌≡◌, ◌<◌, ◌^◌, IfOk};
ghost use Rattle.gt_declare.specs.Programs.{word_of};

use gt_drafts::DraftWord;
use gt_types::{Copied, Typedef};
use gt_typing::node;
use std::alloc::{AllocError, Global};

/// A name of a typedef, as the program has it. It fails only if memory runs out.
pub fn word_of(alloc: Global, word: &DraftWord) -> Result<Typedef, AllocError>
    requires small { word.now.id < 2 ^ 32 }
    ensures made { IfOk result (λ made. made ≡ word_of word.now) }
{
    Ok(Typedef {
        name: word.name.copy(alloc)?,
        pointer: word.pointer,
        id: node(word.id),
    })
}
