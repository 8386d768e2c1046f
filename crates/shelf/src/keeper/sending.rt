//! What the keeper sends to `left_right`.
ghost use Rattle.std.specs.Prelude.{◌≡◌, ◌++◌, None, OnOk, drop};
ghost use Rattle.shelf.specs.CopyRule.{waits};

use crate::rule::Publisher;
use crate::store::Operation;
use base_types::Memory;

/// Sends to `left_right` what waits. Returns `Memory` if it has no room; the publish then waits further.
pub(crate) fn send(writer: &mut Publisher, waiting: &mut Option<Operation>) -> Result<(), Memory>
    ensures desk { writer.new.desk ≡ writer.old.desk }
    ensures all { drop writer.new.behind writer.new.log.items ++ waits waiting.new
        ≡ drop writer.old.behind writer.old.log.items ++ waits waiting.old }
    ensures none { OnOk result (waiting.new ≡ None) }
{
    let Some(operation) = waiting.take() else {
        return Ok(());
    };
    match writer.append(operation) {
        Ok(()) => Ok(()),
        Err(operation) => {
            *waiting = Some(operation);
            Err(Memory::told_by_library())
        }
    }
}
