//! What a reader believes of paths, each as the contract of a call that does nothing.
ghost use Rattle.std.specs.Prelude.{◌≡◌, Ok, Some};
ghost use Rattle.fm_model.specs.declared.row.ViewName.{ViewName};
ghost use Rattle.web_path.specs.Path.{CanBeWritten, IsPathOf, Spelling, path_of};
ghost use Rattle.web_path.specs.declared.target.Target.{Target};
ghost use Rattle.web_path.specs.Reading.{view_of};
ghost use Rattle.web_path.specs.Target.{target_of};
ghost use Rattle.web_path.specs.Url.{IsTargetOf};

use fm_model::Site;

/// The path of each view, in each spelling, is read as that view, and what is read as a view is a path of it.
#[tactic(auto, using(crate::proofs::PathLaws::paths))]
pub fn paths_are_those_of_views(site: &Site, path: &[u8])
    ensures read { (spelling : Spelling) (view : ViewName) → CanBeWritten site.now view
        → view_of site.now (path_of site.now spelling view) ≡ Some view }
    ensures written { (view : ViewName) → view_of site.now path.now ≡ Some view
        → IsPathOf site.now path.now view }
{}

/// A text is read as a target exactly where it asks for that: a path of the view, in either spelling, a `.` and the
/// word of the service, then a `?` and the constraint, or neither, with any of the bytes escaped.
#[tactic(auto, using(crate::proofs::PathLaws::targets))]
pub fn targets_are_those_of_views(site: &Site, text: &[u8])
    ensures read { (target : Target) → IsTargetOf site.now text.now target
        → target_of site.now text.now ≡ Ok target }
    ensures written { (target : Target) → target_of site.now text.now ≡ Ok target
        → IsTargetOf site.now text.now target }
{}
