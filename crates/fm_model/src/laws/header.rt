//! Headers that are taken.
ghost use Rattle.std.specs.Prelude.{◌≡◌, ℕ, List, Ok, None, Contains, IsTrue, length};
ghost use Rattle.nc_model.specs.declared.header.Header.{Header as FileHeader};
ghost use Rattle.nc_model.specs.declared.header.NcVar.{NcVar};
ghost use Rattle.nc_model.specs.Layout.{layout_fault};
ghost use Rattle.nc_model.specs.Reading.{header_or_fault};
ghost use Rattle.fm_model.specs.declared.proto.Proto.{Proto};
ghost use Rattle.fm_model.specs.LoadAxis.{file_axis, file_header};
ghost use Rattle.fm_model.specs.Prototype.{proto_header};
ghost use Rattle.fm_model.specs.Variable.{is_coordinate};

/// The header of a prototype, and of a file that is taken, is that of the bytes, and all data lies in them.
pub fn headers_have_their_data_in_the_file()
    ensures proto { (bytes : List ℕ) (header : FileHeader) → proto_header bytes ≡ Ok header
        → (header_or_fault bytes ≡ Ok header) × (layout_fault header (length bytes) ≡ None) }
    ensures file { (bytes : List ℕ) (header : FileHeader) → file_header bytes ≡ Ok header
        → (header_or_fault bytes ≡ Ok header) × (layout_fault header (length bytes) ≡ None) }
{}

/// The axis of a file is its variable with the name of the prototype's axis, and a coordinate variable.
pub fn an_axis_has_the_name_of_the_prototypes()
    ensures held { (proto : Proto) (header : FileHeader) (axis : NcVar) →
        file_axis proto header ≡ Ok axis → Contains header.vars axis }
    ensures name { (proto : Proto) (header : FileHeader) (axis : NcVar) →
        file_axis proto header ≡ Ok axis → axis.name ≡ proto.axis }
    ensures coordinate { (proto : Proto) (header : FileHeader) (axis : NcVar) →
        file_axis proto header ≡ Ok axis
        → IsTrue (is_coordinate header.dims axis.name axis.kind axis.dims) }
{}
