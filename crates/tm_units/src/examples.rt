//! Offsets at which texts of units go wrong, counted by hand, each as the contract of a call that does nothing.
ghost use Rattle.std.specs.Prelude.{◌≡◌, codes, None, Err};
ghost use Rattle.nc_model.specs.Units.{units_of};

use nc_model::UnitsFault;

/// Offsets of faults at the unit. A word counts whole: the longest run of letters.
#[tactic(auto, unfolding(crate::proofs::Computing::texts))]
pub fn unit_offsets()
    ensures unknown_word_at_the_end { units_of (codes "da") None ≡ Err (UnitsFault.BadUnits 0) }
    ensures longer_than_a_unit { units_of (codes "  dayss since 2020-1-1") None
        ≡ Err (UnitsFault.BadUnits 2) }
{}

/// Offsets of faults in the date. A number is the longest run of digits, of four for a year and of two else, and its
/// range is checked whatever follows.
#[tactic(auto, unfolding(crate::proofs::Computing::texts))]
pub fn date_offsets()
    ensures month_0_at_the_end { units_of (codes "days since 2020-0") None
        ≡ Err (UnitsFault.BadUnits 16) }
    ensures month_of_three_digits { units_of (codes "days since 2020-001-01") None
        ≡ Err (UnitsFault.BadUnits 16) }
    ensures month_13 { units_of (codes "days since 2020-13-1") None ≡ Err (UnitsFault.BadUnits 16) }
    ensures no_leap_year { units_of (codes "days since 2023-2-29") None
        ≡ Err (UnitsFault.BadUnits 18) }
    ensures day_of_three_digits { units_of (codes "days since 2020-1-111") None
        ≡ Err (UnitsFault.BadUnits 20) }
{}

/// Offsets of faults in a date without dashes. After four digits a fifth begins the month.
#[tactic(auto, unfolding(crate::proofs::Computing::texts))]
pub fn joined_date_offsets()
    ensures fifth_digit_0 { units_of (codes "days since 20240") None
        ≡ Err (UnitsFault.BadUnits 15) }
    ensures month_of_one_digit { units_of (codes "days since 20241") None
        ≡ Err (UnitsFault.BadUnits 16) }
    ensures joined_month_13 { units_of (codes "days since 20241328") None
        ≡ Err (UnitsFault.BadUnits 15) }
    ensures no_joined_day { units_of (codes "days since 202402") None
        ≡ Err (UnitsFault.BadUnits 17) }
    ensures joined_day_0 { units_of (codes "days since 2024010") None
        ≡ Err (UnitsFault.BadUnits 17) }
    ensures joined_day_of_one_digit { units_of (codes "days since 2024022") None
        ≡ Err (UnitsFault.BadUnits 18) }
    ensures february_30 { units_of (codes "days since 20240230") None
        ≡ Err (UnitsFault.BadUnits 17) }
    ensures ninth_digit { units_of (codes "days since 202402281") None
        ≡ Err (UnitsFault.BadUnits 19) }
    ensures dash_before_the_day_alone { units_of (codes "days since 202402-28") None
        ≡ Err (UnitsFault.BadUnits 17) }
    ensures dash_before_the_month_alone { units_of (codes "days since 2024-0228") None
        ≡ Err (UnitsFault.BadUnits 18) }
    ensures zone_after_a_joined_date { units_of (codes "days since 20240228Z") None
        ≡ Err (UnitsFault.BadUnits 19) }
{}

/// Offsets of faults in a time, which may be its hour alone.
#[tactic(auto, unfolding(crate::proofs::Computing::texts))]
pub fn time_offsets()
    ensures hour_24 { units_of (codes "days since 2020-1-1 24:00") None
        ≡ Err (UnitsFault.BadUnits 20) }
    ensures minute_without_a_colon { units_of (codes "days since 2020-1-1 12 00") None
        ≡ Err (UnitsFault.BadUnits 25) }
    ensures minute_joined_to_the_hour { units_of (codes "days since 20240228T1830Z") None
        ≡ Err (UnitsFault.BadUnits 22) }
    ensures third_decimal_5 { units_of (codes "days since 2020-1-1 12:00:00.005") None
        ≡ Err (UnitsFault.BadUnits 31) }
{}

/// Offsets of faults in a zone. After a sign one or two digits are the hours, and a third begins the minutes.
#[tactic(auto, unfolding(crate::proofs::Computing::texts))]
pub fn zone_offsets()
    ensures gmt_cut { units_of (codes "days since 2020-1-1 12:00 GM") None
        ≡ Err (UnitsFault.BadUnits 28) }
    ensures gmt_misspelled { units_of (codes "days since 2020-1-1 12:00 GTM") None
        ≡ Err (UnitsFault.BadUnits 27) }
    ensures plus_after_gmt { units_of (codes "days since 2020-1-1 12:00 GMT+1") None
        ≡ Err (UnitsFault.BadUnits 29) }
    ensures zone_of_three_digits { units_of (codes "days since 2020-1-1 12:00 +053") None
        ≡ Err (UnitsFault.BadUnits 30) }
    ensures zone_of_three_digits_and_a_colon { units_of (codes "days since 2020-1-1 12:00 +053:0") None
        ≡ Err (UnitsFault.BadUnits 30) }
    ensures zone_of_five_digits { units_of (codes "days since 2020-1-1 12:00 +05300") None
        ≡ Err (UnitsFault.BadUnits 31) }
    ensures zone_of_four_digits_and_a_colon { units_of (codes "days since 2020-1-1 12:00 +0530:00") None
        ≡ Err (UnitsFault.BadUnits 31) }
    ensures zone_hour_53 { units_of (codes "days since 2020-1-1 12:00 +530") None
        ≡ Err (UnitsFault.BadUnits 27) }
    ensures joined_zone_minute_60 { units_of (codes "days since 2020-1-1 12:00 -0560") None
        ≡ Err (UnitsFault.BadUnits 29) }
    ensures zone_minute_of_one_digit { units_of (codes "days since 2020-1-1 12:00 +5:6") None
        ≡ Err (UnitsFault.BadUnits 30) }
    ensures zone_minute_of_one_digit_before_a_letter { units_of (codes "days since 2020-1-1 12:00 +5:6x") None
        ≡ Err (UnitsFault.BadUnits 30) }
    ensures zone_minute_60 { units_of (codes "days since 2020-1-1 12:00 -5:60") None
        ≡ Err (UnitsFault.BadUnits 29) }
{}

/// Offsets of faults in a zone without its sign, which stands after a gap alone.
#[tactic(auto, unfolding(crate::proofs::Computing::texts))]
pub fn shift_offsets()
    ensures shift_without_a_gap { units_of (codes "days since 2020-1-1 12:000:00") None
        ≡ Err (UnitsFault.BadUnits 25) }
    ensures shift_of_hours_alone { units_of (codes "days since 2020-1-1 0:0 1") None
        ≡ Err (UnitsFault.BadUnits 25) }
    ensures shift_hour_24 { units_of (codes "days since 2020-1-1 12:00 24:00") None
        ≡ Err (UnitsFault.BadUnits 26) }
    ensures shift_of_one_minute_digit { units_of (codes "days since 2020-1-1 12:00 1:5") None
        ≡ Err (UnitsFault.BadUnits 29) }
    ensures shift_minute_60 { units_of (codes "days since 2020-1-1 12:00 1:60") None
        ≡ Err (UnitsFault.BadUnits 28) }
    ensures shift_without_a_colon { units_of (codes "days since 2020-1-1 12:00 0530") None
        ≡ Err (UnitsFault.BadUnits 28) }
    ensures word_after_a_shift { units_of (codes "days since 2020-1-1 12:00 0:00Z") None
        ≡ Err (UnitsFault.BadUnits 30) }
    ensures second_zone { units_of (codes "days since 2020-1-1 12:00 +1 1:00") None
        ≡ Err (UnitsFault.BadUnits 29) }
{}

/// Newer spellings say what older ones say.
#[tactic(auto, unfolding(crate::proofs::Computing::texts))]
pub fn same_units()
    ensures joined_date { units_of (codes "days since 20240228") None
        ≡ units_of (codes "days since 2024-2-28") None }
    ensures hour_alone { units_of (codes "days since 2024-2-28 18") None
        ≡ units_of (codes "days since 2024-2-28 18:00") None }
    ensures hour_and_zulu { units_of (codes "days since 20240228T18Z") None
        ≡ units_of (codes "days since 2024-2-28 18:00:00 Z") None }
    ensures gmt { units_of (codes "days since 2024-2-28 1:02 gMt") None
        ≡ units_of (codes "days since 2024-2-28 1:02 UTC") None }
    ensures gmt_without_a_gap { units_of (codes "days since 2024-2-28 0gmt") None
        ≡ units_of (codes "days since 2024-2-28 0:00 Z") None }
    ensures joined_zone { units_of (codes "days since 2024-2-28 0 -0130") None
        ≡ units_of (codes "days since 2024-2-28 0:00 -1:30") None }
    ensures zone_behind { units_of (codes "days since 2024-2-28 0 -0130") None
        ≡ units_of (codes "days since 2024-2-28 1:30") None }
    ensures no_shift { units_of (codes "days since 2024-2-28 1:02:03.0 0:00") None
        ≡ units_of (codes "days since 2024-2-28 1:02:03 Z") None }
    ensures shift { units_of (codes "days since 2024-2-28 18  01:30 ") None
        ≡ units_of (codes "days since 2024-2-28 18:00 +1:30") None }
{}
