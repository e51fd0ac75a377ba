//! Declarations, and the whole structure text.
ghost use Rattle.std.specs.Prelude.{◌≡◌, ◌++◌, [], codes};
ghost use Rattle.dap_model.specs.declared.declaration.Decl.TheVariants.{Structure};
ghost use Rattle.dap_model.specs.StructureText.{close_text, indent, line_text};
ghost use Rattle.dap_client.specs.Reading as scan;
ghost use Rattle.dap_client.specs.Reading.{Reads};
ghost use Rattle.dap_client.specs.TextReading as text;

use crate::array::{read_array, read_grid_array};
use crate::cursor::Cursor;
use crate::kind::{read_kind, read_opening};
use crate::map::read_maps;
use crate::opening::Opening;
use dap_model::{Array, Decl};
use fm_base::{Bytes, Fail, List};
use std::alloc::Global;

// Passes over what stands above the array of a Grid.
#[tactic(auto, unfolding(dap_model::specs::StructureText::line_text, dap_model::specs::StructureText::indent))]
fn read_above(cursor: &mut Cursor<'_>) -> Result<(), Fail<u64>>
    ensures { Reads (λ u. u) (scan.fixed_at (line_text 2 (codes "ARRAY:") ++ indent 3) cursor.old) result cursor.new }
{
    cursor.fixed(b"        ARRAY:\n            ")
}

// Passes over what stands between the array of a Grid and its maps.
#[tactic(auto, unfolding(dap_model::specs::StructureText::line_text, dap_model::specs::StructureText::indent))]
fn read_between(cursor: &mut Cursor<'_>) -> Result<(), Fail<u64>>
    ensures { Reads (λ u. u) (scan.fixed_at (line_text 2 (codes "MAPS:")) cursor.old) result cursor.new }
{
    cursor.fixed(b"        MAPS:\n")
}

// Passes over the line that closes a declaration of this name.
#[tactic(auto, unfolding(dap_model::specs::StructureText::close_text, dap_model::specs::StructureText::indent))]
fn read_close(alloc: Global, cursor: &mut Cursor<'_>, name: &[u8]) -> Result<(), Fail<u64>>
    ensures { Reads (λ u. u) (scan.fixed_at (close_text 1 name.now) cursor.old) result cursor.new }
{
    let mut close = Bytes::copy_of(alloc, b"    } ")?;
    close.append(name)?;
    close.append(b";\n")?;
    cursor.fixed(close.as_slice())
}

// Reads a Grid behind the line that opens it.
#[tactic(auto, unfolding(crate::specs::TextReading::grid_at))]
fn read_grid(alloc: Global, cursor: &mut Cursor<'_>) -> Result<Decl, Fail<u64>>
    ensures { Reads (λ decl. decl) (text.grid_at cursor.old) result cursor.new }
{
    read_above(cursor)?;
    let array = read_grid_array(alloc, cursor)?;
    read_between(cursor)?;
    let maps = read_maps(alloc, cursor, array.dims.as_slice())?;
    read_close(alloc, cursor, array.name.as_slice())?;
    let name = Bytes::copy_of(alloc, array.name.as_slice())?;
    Ok(Decl::Grid { name, array, maps })
}

// Passes over four spaces, and says whether a fifth follows, or the brace that closes a Structure.
#[tactic(auto, unfolding(crate::specs::TextReading::member_mark_at, dap_model::specs::StructureText::indent))]
fn read_member_mark(cursor: &mut Cursor<'_>) -> Result<bool, Fail<u64>>
    ensures { Reads (λ mark. mark) (text.member_mark_at cursor.old) result cursor.new }
{
    cursor.fixed(b"    ")?;
    cursor.mark(b' ', b'}')
}

// Reads a member of a Structure behind its first five spaces.
#[tactic(auto, unfolding(crate::specs::TextReading::member_at))]
fn read_member(
    alloc: Global,
    cursor: &mut Cursor<'_>,
    members: &mut List<Array>,
) -> Result<(), Fail<u64>>
    ensures { Reads (λ _. members.new) (text.member_at members.old cursor.old) result cursor.new }
{
    cursor.fixed(b"   ")?;
    let kind = read_kind(cursor)?;
    let array = read_array(alloc, cursor, kind)?;
    members.push(array)?;
    Ok(())
}

// Reads one member more of a Structure, or what begins the line that closes it, and says which.
#[tactic(auto, unfolding(crate::specs::Reading::turn_at))]
fn read_member_or_end(
    alloc: Global,
    cursor: &mut Cursor<'_>,
    members: &mut List<Array>,
) -> Result<bool, Fail<u64>>
    ensures { let mark = text.member_mark_at in Reads (λ more. (more, members.new))
        (scan.turn_at mark text.member_at members.old cursor.old) result cursor.new }
{
    if !read_member_mark(cursor)? {
        return Ok(false);
    }
    read_member(alloc, cursor, members)?;
    Ok(true)
}

// Reads members of a Structure after the first, and what begins the line that closes it.
#[tactic(auto, using(crate::proofs::TurnLemmas::turns))]
fn read_more_members(
    alloc: Global,
    cursor: &mut Cursor<'_>,
    members: &mut List<Array>,
) -> Result<(), Fail<u64>>
    ensures { let mark = text.member_mark_at in
        Reads (λ _. members.new) (scan.items_at mark text.member_at members.old cursor.old) result cursor.new }
{
    let left = cursor.left();
    for _turn in 0..left {
        if !read_member_or_end(alloc, cursor, members)? {
            return Ok(());
        }
    }
    Err(Fail::Fault(cursor.at()))
}

// Reads the members of a Structure behind the line that opens it into an empty list, and then its name.
#[tactic(auto, unfolding(crate::specs::TextReading::structure_at))]
fn read_members(
    alloc: Global,
    cursor: &mut Cursor<'_>,
    members: &mut List<Array>,
) -> Result<Bytes, Fail<u64>>
    requires { members.old ≡ [] }
    ensures { Reads (λ name. Structure name members.new) (text.structure_at cursor.old) result cursor.new }
{
    cursor.fixed(b"     ")?;
    read_member(alloc, cursor, members)?;
    read_more_members(alloc, cursor, members)?;
    cursor.fixed(b" ")?;
    let (name, _) = cursor.name_word(b';', b';')?;
    cursor.fixed(b"\n")?;
    let name = Bytes::copy_of(alloc, name)?;
    Ok(name)
}

// Reads a Structure behind the line that opens it.
fn read_structure(alloc: Global, cursor: &mut Cursor<'_>) -> Result<Decl, Fail<u64>>
    ensures { Reads (λ decl. decl) (text.structure_at cursor.old) result cursor.new }
{
    let mut members = List::new(alloc);
    match read_members(alloc, cursor, &mut members) {
        Ok(name) => Ok(Decl::Structure { name, members }),
        Err(fail) => {
            drop(members);
            Err(fail)
        }
    }
}

// Reads a declaration of this opening.
#[tactic(auto, unfolding(crate::specs::TextReading::opened_at))]
fn read_opened(alloc: Global, cursor: &mut Cursor<'_>, opening: Opening) -> Result<Decl, Fail<u64>>
    ensures { Reads (λ decl. decl) (text.opened_at opening cursor.old) result cursor.new }
{
    match opening {
        Opening::Plain(kind) => Ok(Decl::Plain(read_array(alloc, cursor, kind)?)),
        Opening::Grid => read_grid(alloc, cursor),
        Opening::Structure => read_structure(alloc, cursor),
    }
}

// Reads a declaration behind its first space.
#[tactic(auto, unfolding(crate::specs::TextReading::decl_at))]
fn read_decl(
    alloc: Global,
    cursor: &mut Cursor<'_>,
    decls: &mut List<Decl>,
) -> Result<(), Fail<u64>>
    ensures { Reads (λ _. decls.new) (text.decl_at decls.old cursor.old) result cursor.new }
{
    cursor.fixed(b"   ")?;
    let opening = read_opening(cursor)?;
    let decl = read_opened(alloc, cursor, opening)?;
    decls.push(decl)?;
    Ok(())
}

// Reads one declaration more, or the brace that closes the dataset, and says which.
#[tactic(auto, unfolding(crate::specs::Reading::turn_at))]
fn read_decl_or_end(
    alloc: Global,
    cursor: &mut Cursor<'_>,
    decls: &mut List<Decl>,
) -> Result<bool, Fail<u64>>
    ensures { let mark = scan.mark_at 32 125 in Reads (λ more. (more, decls.new))
        (scan.turn_at mark text.decl_at decls.old cursor.old) result cursor.new }
{
    if !cursor.mark(b' ', b'}')? {
        return Ok(false);
    }
    read_decl(alloc, cursor, decls)?;
    Ok(true)
}

// Reads all declarations, and the brace that closes the dataset.
#[tactic(auto, using(crate::proofs::TurnLemmas::turns))]
fn read_decls(
    alloc: Global,
    cursor: &mut Cursor<'_>,
    decls: &mut List<Decl>,
) -> Result<(), Fail<u64>>
    ensures { let mark = scan.mark_at 32 125 in
        Reads (λ _. decls.new) (scan.items_at mark text.decl_at decls.old cursor.old) result cursor.new }
{
    let left = cursor.left();
    for _turn in 0..left {
        if !read_decl_or_end(alloc, cursor, decls)? {
            return Ok(());
        }
    }
    Err(Fail::Fault(cursor.at()))
}

// Passes over the first line.
#[tactic(auto, unfolding(dap_model::specs::StructureText::line_text, dap_model::specs::StructureText::indent))]
fn read_first_line(cursor: &mut Cursor<'_>) -> Result<(), Fail<u64>>
    ensures { Reads (λ u. u) (scan.fixed_at (line_text 0 (codes "Dataset {")) cursor.old) result cursor.new }
{
    cursor.fixed(b"Dataset {\n")
}

// Reads the declarations of a structure text into an empty list, and then its label.
#[tactic(auto, unfolding(crate::specs::TextReading::dataset_at))]
fn read_labelled(
    alloc: Global,
    cursor: &mut Cursor<'_>,
    decls: &mut List<Decl>,
) -> Result<Bytes, Fail<u64>>
    requires { decls.old ≡ [] }
    ensures { Reads (λ label. (label, decls.new)) (text.dataset_at cursor.old) result cursor.new }
{
    read_first_line(cursor)?;
    read_decls(alloc, cursor, decls)?;
    cursor.fixed(b" ")?;
    let (label, _) = cursor.label_word()?;
    cursor.fixed(b"\n")?;
    let label = Bytes::copy_of(alloc, label)?;
    Ok(label)
}

// Reads a structure text: the label and the declarations.
pub(crate) fn read_dataset(
    alloc: Global,
    cursor: &mut Cursor<'_>,
) -> Result<(Bytes, List<Decl>), Fail<u64>>
    ensures { Reads (λ dataset. dataset) (text.dataset_at cursor.old) result cursor.new }
{
    let mut decls = List::new(alloc);
    match read_labelled(alloc, cursor, &mut decls) {
        Ok(label) => Ok((label, decls)),
        Err(fail) => {
            drop(decls);
            Err(fail)
        }
    }
}
