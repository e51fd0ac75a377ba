//! Lines of fixed words, as the structure text and the attribute text have them.
ghost use Rattle.std.specs.Prelude.{◌≡◌, ◌<◌, ◌++◌, length, take, OnOk, OnErr};
ghost use Rattle.dap_model.specs.StructureText.{indent, line_text};

use fm_base::{Bytes, NoMemory};

/// Writes four spaces for each level. After an `Err` some of them may stand at the end.
#[tactic(auto, unfolding(dap_model::specs::StructureText::indent))]
pub fn put_indent(depth: u32, out: &mut Bytes) -> Result<(), NoMemory>
    requires { depth < 8 }
    ensures ok { OnOk result (out.new ≡ out.old ++ indent depth) }
    ensures err { OnErr result (take (length out.old) out.new ≡ out.old) }
{
    let spaces = [b' '; 28];
    let (front, _) = spaces.split_at(4 * depth as usize);
    out.append(front)
}

/// Writes a line of these words. After an `Err` a front of it may stand at the end.
#[tactic(auto, unfolding(dap_model::specs::StructureText::line_text))]
pub fn put_line(depth: u32, words: &[u8], out: &mut Bytes) -> Result<(), NoMemory>
    requires { depth < 8 }
    ensures ok { OnOk result (out.new ≡ out.old ++ line_text depth words.now) }
    ensures err { OnErr result (take (length out.old) out.new ≡ out.old) }
{
    put_indent(depth, out)?;
    out.append(words)?;
    out.append(b"\n")
}
