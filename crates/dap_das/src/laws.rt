//! What a reader believes of the attribute text, each as the contract of a call that does nothing.
ghost use Rattle.std.specs.Prelude.{◌≡◌, ◌++◌, ◌∷◌, [], map};
ghost use Rattle.fm_model.specs.Prototype.{offset_name, run_name};
ghost use Rattle.dap_das.specs.Attributes.{Container, containers_of};
ghost use Rattle.dap_das.specs.AttributeText.{escaped_name};
ghost use Rattle.fm_model.specs.declared.proto.ProtoVar.{ProtoVar as Var};

use fm_model::{Proto, ViewName};

/// The text has a container for each variable of the prototype, under its name and in the prototype's order, and then
/// one for the runs and one for the offsets.
pub fn each_declaration_has_a_container(proto: &Proto, view: &ViewName)
    ensures { map (λ (container : Container). container.name) (containers_of proto.now view.now)
        ≡ map (λ (var : Var). var.name) proto.now.vars
        ++ run_name proto.now.axis ∷ offset_name proto.now.axis ∷ [] }
{}

/// Two names that are the same once escaped are the same.
pub fn escaped_names_have_one_name(a: &[u8], b: &[u8])
    ensures { escaped_name a.now ≡ escaped_name b.now → a.now ≡ b.now }
{}
