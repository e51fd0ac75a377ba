//! The line before the attributes of a name.
ghost use Rattle.std.specs.Prelude.{◌≡◌, ◌++◌, OnOk};
ghost use Rattle.dap_das.specs.AttributeText.{open_text};

use dap_dds::put_indent;
use fm_base::{Bytes, NoMemory};

// Writes the line before the attributes of a name.
#[tactic(auto, unfolding(crate::specs::AttributeText::open_text, dap_model::specs::StructureText::line_text))]
pub(crate) fn put_open(name: &[u8], out: &mut Bytes) -> Result<(), NoMemory>
    ensures { OnOk result (out.new ≡ out.old ++ open_text name.now) }
{
    put_indent(1, out)?;
    out.append(name)?;
    out.append(b" {")?;
    out.append(b"\n")
}
