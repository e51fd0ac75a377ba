//! Files that are taken.
ghost use Rattle.std.specs.Prelude.{◌≡◌, ◌≢◌, ◌+◌, ◌*◌, ◌<◌, ◌≤◌, ◌∷◌, ℕ, ℤ};
ghost use Rattle.std.specs.Prelude.{None, Some, List, Ok, All, AllPairs, IsTrue, drop, length, slice_get, true, false};
ghost use Rattle.std.specs.List.{AllZip};
ghost use Rattle.std.specs.Result.{result_ok};
ghost use Rattle.nc_model.specs.declared.header.Header.{Header as FileHeader};
ghost use Rattle.nc_model.specs.declared.header.NcVar.{NcVar};
ghost use Rattle.nc_model.specs.declared.units.Units.{Units as TimeUnits};
ghost use Rattle.nc_model.specs.Kind.{size_of};
ghost use Rattle.nc_model.specs.Layout.{offset_of, rank_in, shape_of, size_at};
ghost use Rattle.fm_model.specs.declared.loaded.Loaded.{Loaded};
ghost use Rattle.fm_model.specs.declared.proto.Proto.{Proto};
ghost use Rattle.fm_model.specs.declared.proto.ProtoVar.{ProtoVar};
ghost use Rattle.fm_model.specs.Load.{load_of, Fits};
ghost use Rattle.fm_model.specs.LoadAxis.{file_axis, file_header};
ghost use Rattle.fm_model.specs.LoadFacts.{IsFit};
ghost use Rattle.fm_model.specs.LoadTimes.{file_units, run_by_name, run_by_variable, time_at, IsInstant};
ghost use Rattle.fm_model.specs.LoadVars.{slot_in, slotted_vars};
ghost use Rattle.fm_model.specs.LoadVars.{IsSameGrid, IsSlotOf, LiesWithin};
ghost use Rattle.fm_model.specs.Prototype.{IsSound};
ghost use Rattle.fm_model.specs.Variable.{dim_of_axis, is_coordinate, reference_of, stands_first_alone};

use crate::limit::MAX_TIMES;

/// A name and bytes are taken for at most one file, which has that name and those bytes.
pub fn loading_accepts_one_file()
    ensures one { (name bytes : List ℕ) (proto : Proto) (file other : Loaded) →
        load_of name bytes proto ≡ Ok file → load_of name bytes proto ≡ Ok other → file ≡ other }
    ensures name { (name bytes : List ℕ) (proto : Proto) (file : Loaded) →
        load_of name bytes proto ≡ Ok file → file.name ≡ name }
    ensures content { (name bytes : List ℕ) (proto : Proto) (file : Loaded) →
        load_of name bytes proto ≡ Ok file → file.content ≡ bytes }
    ensures fits { (name bytes : List ℕ) (proto : Proto) (file : Loaded) →
        load_of name bytes proto ≡ Ok file → Fits file proto }
{}

/// A file that fits has 1 to 4,096 times, which all differ. They and its run are instants of the collection.
pub fn a_fit_file_has_sound_times()
    ensures some { (file : Loaded) (proto : Proto) → Fits file proto → 0 < length file.times }
    ensures few { (file : Loaded) (proto : Proto) → Fits file proto
        → length file.times ≤ MAX_TIMES }
    ensures differ { (file : Loaded) (proto : Proto) → Fits file proto
        → AllPairs (λ (a b : ℤ). a ≢ b) file.times }
    ensures instants { (file : Loaded) (proto : Proto) → Fits file proto
        → All IsInstant file.times }
    ensures run { (file : Loaded) (proto : Proto) → Fits file proto → IsInstant file.run }
{}

/// The run of a file that fits is the value of its variable of the run's time; where it has none, the mark in its name.
pub fn a_fit_file_has_the_run_that_it_names()
    ensures variable { (file : Loaded) (proto : Proto) (header : FileHeader) (var : NcVar) →
        Fits file proto → file_header file.content ≡ Ok header → reference_of header ≡ Some var
        → run_by_variable proto.site file.content header var ≡ Ok file.run }
    ensures name { (file : Loaded) (proto : Proto) (header : FileHeader) → Fits file proto
        → file_header file.content ≡ Ok header → reference_of header ≡ None
        → run_by_name proto.site file.name ≡ Ok file.run }
{}

/// The times of a file that fits are those of its axis, in the file's order.
pub fn a_fit_file_has_the_times_of_its_axis()
    ensures count { (file : Loaded) (proto : Proto) (header : FileHeader) (axis : NcVar) →
        Fits file proto → file_header file.content ≡ Ok header
        → file_axis proto header ≡ Ok axis
        → length file.times ≡ size_at header (dim_of_axis axis) }
    ensures each { (file : Loaded) (proto : Proto) (header : FileHeader) (axis : NcVar)
        (units : TimeUnits) (k : ℕ) → Fits file proto
        → file_header file.content ≡ Ok header → file_axis proto header ≡ Ok axis
        → file_units axis ≡ Ok units → k < length file.times
        → slice_get file.times k
        ≡ result_ok (time_at proto.site file.content header axis units k) }
{}

/// A file that fits has one slot for each variable along the axis but for the axis itself, in the prototype's order.
pub fn a_fit_file_has_a_slot_for_each_variable()
    ensures count { (file : Loaded) (proto : Proto) → Fits file proto
        → length file.slots ≡ length (slotted_vars proto) }
    ensures each { (file : Loaded) (proto : Proto) (header : FileHeader) (axis : NcVar) →
        Fits file proto → file_header file.content ≡ Ok header
        → file_axis proto header ≡ Ok axis
        → AllZip (IsSlotOf proto header axis) (slotted_vars proto) file.slots }
{}

/// The data of each slot lies in the content, at each of the file's times.
pub fn the_data_of_slots_lies_in_the_content()
    ensures { (file : Loaded) (proto : Proto) → IsSound proto → Fits file proto
        → AllZip (LiesWithin proto (length file.times) (length file.content))
        (slotted_vars proto) file.slots }
{}

/// A file that fits lies on the prototype's grid: it has each coordinate variable but for the axis, with the same
/// elements.
pub fn a_fit_file_has_the_same_grid()
    ensures { (file : Loaded) (proto : Proto) (header : FileHeader) → IsSound proto
        → Fits file proto
        → file_header file.content ≡ Ok header
        → All (λ (wanted : ProtoVar). wanted.name ≢ proto.axis → wanted.timed ≡ false
        → IsTrue (is_coordinate proto.dims wanted.name wanted.kind wanted.dims)
        → IsSameGrid proto file.content header wanted) proto.vars }
{}

/// A slot says where each element of its variable lies: at the k-th time they begin at `begin + k * step`, and follow
/// each other in row-major order.
pub fn slots_say_where_elements_lie()
    ensures { (header : FileHeader) (axis var : NcVar) (k : ℕ) (index : List ℕ) →
        IsTrue (stands_first_alone (dim_of_axis axis) var.dims)
        → offset_of header var (k ∷ index)
        ≡ (slot_in header axis var).begin + k * (slot_in header axis var).step
        + size_of var.kind * rank_in (drop 1 (shape_of header var)) index }
{}

/// All that holds of a file that fits, as one record.
pub fn a_fit_file_is_sound()
    ensures { (file : Loaded) (proto : Proto) → IsSound proto → Fits file proto → IsFit file proto }
{}
