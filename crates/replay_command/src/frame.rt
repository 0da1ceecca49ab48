//! The blocks behind the lines of a script.

ghost use Rattle.script_text.specs.Steps.{block_wanted};

use script_text::block_len;
use session::Blocks;

/// A line has the block that its command asks for.
pub(crate) struct ScriptBlocks;

impl Blocks for ScriptBlocks {
    ghost wants = { block_wanted };

    fn len_behind(line: &[u8]) -> Option<u32> {
        block_len(line)
    }
}
