//! What a reader believes of the definitions, each as the contract of a call that does nothing.
ghost use Rattle.std.specs.Prelude.{◌≡◌, ◌+◌, ◌^◌, ◌<◌, ◌∷◌, ℕ, List, Some, Contains, length, slice_get, take, drop};
ghost use Rattle.std.specs.Prelude.{min, false, true};
ghost use Rattle.nc_model.specs.Kind.{size_of};
ghost use Rattle.nc_model.specs.Layout.{indices_of, rank_in, IsIndex};
ghost use Rattle.fm_model.specs.Attribute.{is_char};
ghost use Rattle.fm_model.specs.declared.loaded.Loaded.{Loaded};
ghost use Rattle.fm_model.specs.declared.proto.Proto.{Proto};
ghost use Rattle.fm_model.specs.declared.proto.ProtoVar.{ProtoVar};
ghost use Rattle.fm_model.specs.declared.row.Row.{Row};
ghost use Rattle.fm_model.specs.declared.row.ViewName.TheVariants.{Best};
ghost use Rattle.fm_model.specs.Prototype.{offset_name, run_name, IsSound};
ghost use Rattle.fm_model.specs.Rows.{rows};
ghost use Rattle.fm_model.specs.Site.{IsPrototype};
ghost use Rattle.dap_model.specs.declared.declaration.Array.{Array};
ghost use Rattle.fm_dataset.specs.Declarations.{array_of, decls_of, dims_in, rows_dim, seconds_of_rows};
ghost use Rattle.fm_dataset.specs.Rows.{AreRows, IsOfLatestRun};
ghost use Rattle.fm_dataset.specs.Values.{array_at, element_in, element_of, var_of_part};
ghost use Rattle.fm_dataset.specs.Values.{indices_from, left_in_row, shape_of_array};
ghost use Rattle.fm_dataset.specs.Values.{text_of_part, HasStored, HasText, IsPart, IsSmall, Shown};

/// A view declares whole seconds of its rows three times: as its axis, as the runs and as the offsets. Each has the
/// rows along its one dimension, which has the axis's name. So has each array along the axis, as its first dimension.
pub fn a_view_has_its_rows_along_the_axis()
    ensures axis { (proto : Proto) (count : ℕ) → IsSound proto
        → Contains (decls_of proto count) (seconds_of_rows proto count proto.axis) }
    ensures runs { (proto : Proto) (count : ℕ) →
        slice_get (decls_of proto count) (length proto.vars)
        ≡ Some (seconds_of_rows proto count (run_name proto.axis)) }
    ensures offsets { (proto : Proto) (count : ℕ) →
        slice_get (decls_of proto count) (length proto.vars + 1)
        ≡ Some (seconds_of_rows proto count (offset_name proto.axis)) }
    ensures along { (proto : Proto) (count : ℕ) (var : ProtoVar) → var.timed ≡ true
        → slice_get (dims_in proto count var) 0 ≡ Some (rows_dim proto count) }
{}

/// A part declares the variable whose values it has: the array of each part of a declaration of a variable is that of
/// the variable that the values are read from, in the order of the declarations.
pub fn a_part_declares_the_variable_of_its_values()
    ensures { (shown : Shown) (decl part : ℕ) (array : Array) → decl < length shown.proto.vars
        → array_at shown decl part ≡ Some array
        → IsPart shown.proto (length shown.rows) decl part array }
{}

/// Each value along the axis is in the file of its row, at the row's index and the other indices. In the best time
/// series that file is the last of the latest run that has the row's valid time.
pub fn a_value_is_in_the_file_of_its_row()
    ensures any { (proto : Proto) (shown : List Row) (var : ProtoVar) (row : Row) (n : ℕ)
        (rest : List ℕ) → var.timed ≡ true → slice_get shown n ≡ Some row
        → element_of proto shown var (n ∷ rest)
        ≡ element_in row.file var.name (row.index ∷ rest) }
    ensures best { (files : List Loaded) (row : Row) (n : ℕ) →
        slice_get (rows files Best) n ≡ Some row → IsOfLatestRun files row }
{}

/// An element of a part whose numbers stand in files or in the prototype is as long as a value of its kind.
pub fn an_element_is_as_long_as_its_kind()
    ensures { (shown : Shown) (decl part : ℕ) (index : List ℕ) (var : ProtoVar) →
        IsSound shown.proto → AreRows shown.proto shown.rows → HasStored shown decl part index
        → var_of_part shown.proto decl part ≡ Some var
        → length (element_of shown.proto shown.rows var index) ≡ size_of var.kind }
{}

/// Each array of a dataset has at most 1,025 dimensions, none of them empty, and fewer than 2^64 elements: a variable
/// of a header has at most 1,024 dimensions, there is a row, and the elements of one row lie in its file.
pub fn each_array_is_small()
    ensures { (shown : Shown) (decl part : ℕ) (array : Array) → IsPrototype shown.proto
        → AreRows shown.proto shown.rows → array_at shown decl part ≡ Some array → IsSmall array }
{}

/// A text of a dataset has at most as many bytes as its last dimension has characters, which are fewer than 2^31.
pub fn each_text_is_short()
    ensures { (shown : Shown) (decl part : ℕ) (index : List ℕ) → IsPrototype shown.proto
        → AreRows shown.proto shown.rows → HasText shown decl part index
        → length (text_of_part shown decl part index) < 2 ^ 31 }
{}

/// The index lists that follow one in its row follow it in the array of the part, in row-major order. So the elements
/// that `raw` lends are the array's next ones.
pub fn what_is_lent_follows_in_the_array()
    ensures { (proto : Proto) (count : ℕ) (var : ProtoVar) (index : List ℕ) (most : ℕ) →
        is_char var.kind ≡ false → IsIndex (shape_of_array (array_of proto count var)) index
        → take most (indices_from proto var index)
        ≡ take (min most (left_in_row proto var index))
        (drop (rank_in (shape_of_array (array_of proto count var)) index)
        (indices_of (shape_of_array (array_of proto count var)))) }
{}
