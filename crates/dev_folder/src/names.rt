//! Which names an inbox offers, and where their files go.
ghost use Rattle.std.specs.Prelude.{◌≡◌};
ghost use Rattle.dev_folder.specs.Names.{ends_alike, is_mistaken, is_offered, same_letters, shelf_name, shelf_of};

use dev_traits::Verdict;

/// A folder inside that of an inbox, to which files go that got their verdicts.
#[derive(Clone, Copy)]
pub enum Shelf {
    Done,
    Refused,
    Later,
    /// For files that were taken back, and for those of `Later` whose names got a later verdict.
    Taken,
}

impl Shelf {
    /// The name of the folder.
    pub fn name(self) -> &'static str
        ensures { result.now ≡ shelf_name self }
    {
        match self {
            Shelf::Done => "done",
            Shelf::Refused => "refused",
            Shelf::Later => "later",
            Shelf::Taken => "taken",
        }
    }
}

/// Whether files of this name are offered: those that end in `.nc` or `.retract`.
pub fn is_offered(name: &[u8]) -> bool
    ensures { result ≡ is_offered name.now }
{
    name.ends_with(b".nc") || name.ends_with(b".retract")
}

// Whether two texts are the same, whatever the case of their letters.
fn same_letters(a: &[u8], b: &[u8]) -> bool
    ensures { result ≡ same_letters a.now b.now }
{
    a.eq_ignore_ascii_case(b)
}

// Whether a name ends so, whatever the case of its letters.
fn ends_alike(name: &[u8], end: &[u8]) -> bool
    ensures { result ≡ ends_alike name.now end.now }
{
    let (_, back) = name.split_at(name.len().saturating_sub(end.len()));
    same_letters(back, end)
}

/// Whether a name isn't offered, and looks like one that should be: it ends in `.nc4`, or in other letters as those do
/// that are offered.
pub fn is_mistaken(name: &[u8]) -> bool
    ensures { result ≡ is_mistaken name.now }
{
    !is_offered(name)
        && (ends_alike(name, b".nc") || ends_alike(name, b".nc4") || ends_alike(name, b".retract"))
}

// The name of the file that a name takes back, where it ends in `.retract`.
pub(crate) fn taken_back(name: &str) -> Option<&str> {
    name.strip_suffix(".retract")
}

/// Where the file goes on which there is this verdict. What found no room or no memory can be offered again. Where
/// there is no file, nothing goes.
pub fn shelf_of(verdict: Verdict) -> Option<Shelf>
    ensures { result ≡ shelf_of verdict }
{
    match verdict {
        Verdict::Published(_) => Some(Shelf::Done),
        Verdict::Refused(_) | Verdict::NotHeld(_) => Some(Shelf::Refused),
        Verdict::Full(_) | Verdict::Short => Some(Shelf::Later),
        Verdict::Gone => None,
    }
}
