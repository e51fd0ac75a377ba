//! When a file is taken: what each step of loading accepts. A caller that makes a file finds here what it owes.
ghost use Rattle.std.specs.Prelude.{◌≡◌, ◌≢◌, ◌<◌, ◌≤◌, ◌-ℤ◌, ◌∷◌, ℕ, ℤ};
ghost use Rattle.std.specs.Prelude.{[], None, Some, List, Ok, AllPairs, length, slice_get, true};
ghost use Rattle.nc_model.specs.declared.header.Header.{Header as FileHeader};
ghost use Rattle.nc_model.specs.declared.header.NcVar.{NcVar};
ghost use Rattle.nc_model.specs.declared.units.Units.{Units as TimeUnits};
ghost use Rattle.nc_model.specs.Layout.{elements_of, size_at};
ghost use Rattle.nc_model.specs.Sound.{sound_header};
ghost use Rattle.nc_model.specs.Stamp.{mark_of};
ghost use Rattle.fm_model.specs.declared.limit.TheConstants.{MAX_TIMES};
ghost use Rattle.fm_model.specs.declared.loaded.Loaded.{Loaded};
ghost use Rattle.fm_model.specs.declared.proto.Proto.{Proto};
ghost use Rattle.fm_model.specs.declared.proto.ProtoVar.{ProtoVar};
ghost use Rattle.fm_model.specs.declared.site.Site.{Site};
ghost use Rattle.fm_model.specs.Load.{load_of};
ghost use Rattle.fm_model.specs.LoadAxis.{file_axis, file_header};
ghost use Rattle.fm_model.specs.LoadTimes as times;
ghost use Rattle.fm_model.specs.LoadVars as vars;
ghost use Rattle.fm_model.specs.Packing.{same_packing};
ghost use Rattle.fm_model.specs.Variable.{dim_of_axis, is_coordinate, reference_of, var_named};
ghost use Rattle.fm_load.specs.Accepted.{IsAccepted};

/// A file is taken where each step of loading accepts it.
pub fn a_file_is_taken_where_each_step_accepts_it()
    ensures { (name bytes : List ℕ) (proto : Proto) (file : Loaded) →
        IsAccepted name bytes proto file → load_of name bytes proto ≡ Ok file }
{}

/// A sound header is accepted, and a coordinate variable with the name of the prototype's axis.
pub fn a_header_and_an_axis_are_accepted()
    ensures header { (bytes : List ℕ) (header : FileHeader) → sound_header bytes ≡ Ok header
        → file_header bytes ≡ Ok header }
    ensures axis { (proto : Proto) (header : FileHeader) (axis : NcVar) →
        var_named header proto.axis ≡ Some axis
        → is_coordinate header.dims axis.name axis.kind axis.dims ≡ true
        → file_axis proto header ≡ Ok axis }
{}

/// The mark in a file's name is its run where no variable says it, if it is an instant.
pub fn a_run_by_the_name_is_accepted()
    ensures { (site : Site) (name bytes : List ℕ) (header : FileHeader) (moment : ℤ) →
        reference_of header ≡ None → mark_of name site.mark ≡ Some moment
        → times.IsInstant (moment -ℤ site.epoch)
        → times.file_run site name bytes header ≡ Ok (moment -ℤ site.epoch) }
{}

/// From 1 to 4,096 times are accepted, each a whole number of seconds and an instant, where they all differ.
pub fn times_that_differ_are_accepted()
    ensures count { (header : FileHeader) (axis : NcVar) (count : ℕ) →
        size_at header (dim_of_axis axis) ≡ count → 0 < count → count ≤ MAX_TIMES
        → times.time_count header axis ≡ Ok count }
    ensures time { (site : Site) (bytes : List ℕ) (header : FileHeader) (axis : NcVar)
        (units : TimeUnits) (k : ℕ) (seconds : ℤ) →
        times.seconds_at bytes header axis units (k ∷ []) ≡ Some seconds
        → times.IsInstant (times.from_epoch site units seconds)
        → times.time_at site bytes header axis units k ≡ Ok (times.from_epoch site units seconds) }
    ensures all { (site : Site) (bytes : List ℕ) (header : FileHeader) (axis : NcVar)
        (units : TimeUnits) (instants : List ℤ) → AllPairs (λ (time other : ℤ). time ≢ other) instants
        → ((k : ℕ) (instant : ℤ) → slice_get instants k ≡ Some instant
        → times.time_at site bytes header axis units k ≡ Ok instant)
        → times.file_times site bytes header axis units (length instants) ≡ Ok instants }
{}

/// A variable that is like the prototype's and packed like it is accepted, and a coordinate variable with the same
/// elements.
pub fn variables_like_the_prototypes_are_accepted()
    ensures slot { (proto : Proto) (header : FileHeader) (axis : NcVar) (wanted : ProtoVar) (var : NcVar) →
        var_named header wanted.name ≡ Some var
        → vars.is_like_timed proto header axis wanted var ≡ true
        → same_packing wanted var ≡ Ok tt
        → vars.file_slot proto header axis wanted ≡ Ok (vars.slot_in header axis var) }
    ensures grid { (proto : Proto) (bytes : List ℕ) (header : FileHeader) (wanted : ProtoVar) (var : NcVar) →
        var_named header wanted.name ≡ Some var
        → vars.is_like_fixed proto header wanted var ≡ true
        → elements_of bytes header var ≡ wanted.fixed
        → vars.same_grid proto bytes header wanted ≡ Ok tt }
{}
