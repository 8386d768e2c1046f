//! Faults.
ghost use Rattle.std.specs.Prelude.{◌≡◌, ◌++◌, OnOk};
ghost use Rattle.loader_replies.specs.Answers.{fault_data, cycle_data};
ghost use Rattle.loader_replies.specs.Tokens.{tokens_of};

use crate::draft::JsonWriter;
use crate::strings::write_texts;
use base_types::{Memory, Text};

/// Writes a fault: its code, and the path and the line at which it is shown.
pub fn write_fault(out: &mut JsonWriter, code: u64, path: &Text, line: usize) -> Result<(), Memory>
    ensures { OnOk result (out.new ≡ out.old ++ tokens_of (fault_data code path.now line)) }
{
    out.begin_object()?;
    out.number_member("code", u64::from(code))?;
    out.number_member("line", line as u64)?;
    out.string_member("path", path.as_str())?;
    out.end_object()
}

/// Writes the fault of loads that lead into a cycle: the labels of the modules on the cycle, in their order.
pub fn write_cycle(out: &mut JsonWriter, labels: &[Text]) -> Result<(), Memory>
    ensures { OnOk result (out.new ≡ out.old ++ tokens_of (cycle_data labels.now)) }
{
    out.begin_object()?;
    out.number_member("code", 19)?;
    out.key("cycle")?;
    write_texts(out, labels)?;
    out.end_object()
}
