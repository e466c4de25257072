// The text of the static record.
ghost use Rattle.std.specs.Prelude.{◌≡◌};
ghost use Rattle.gt_tree.specs.Trees.{Trees, Rec};
ghost use Rattle.gt_tree.specs.Fits.{StaticsFit};
ghost use Rattle.gt_value.specs.Values.{tree_of};
ghost use Rattle.value_notation.specs.Blocks.{blocks};
ghost use Rattle.value_notation.specs.Trials.{IsReady};

use gt_show::show_statics;
use gt_value::Value;
use std::alloc::AllocError;
use value_notation::{Sample, TableBlocks};

/// The text of a static record.
pub fn record_text(on: &Sample, values: &Value) -> Result<String, AllocError>
    requires ready { IsReady on.now.program on.now.layouts }
    requires fits { (parts : Trees) × (tree_of values.now ≡ Rec parts) × StaticsFit on.now.program blocks parts }
{
    let shown = show_statics(on.alloc, &on.program, &on.layouts, values, &TableBlocks)?;
    let mut text = String::new(on.alloc);
    push_ascii(&mut text, shown.as_slice())?;
    Ok(text)
}

/// Adds a text of ASCII characters.
pub fn push_ascii(text: &mut String, shown: &[u8]) -> Result<(), AllocError> {
    for byte in shown {
        text.push(char::from(*byte))?;
    }
    Ok(())
}
