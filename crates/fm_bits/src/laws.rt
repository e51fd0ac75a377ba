//! What a reader believes of texts, numbers and bits, each as the contract of a call that does nothing.
ghost use Rattle.std.specs.Prelude.{◌≡◌, ◌+◌, ◌*◌, ◌/◌, ◌%◌, ◌^◌, ◌<◌, pos, ◌+ℤ◌, nat_le};
ghost use Rattle.std.specs.Int.{trailing_zeros, w64};
ghost use Rattle.nc_model.specs.Pattern.{IsPattern, pattern_value};
ghost use Rattle.nc_model.specs.Pattern.{bits_of_fields, float_value, value_of_fields};
ghost use Rattle.fm_bits.specs.Denotes.{Denotes, shown_value};
ghost use Rattle.fm_bits.specs.Quoted.{quoted};
ghost use Rattle.fm_bits.specs.Text.{pattern_text};

use nc_model::Pattern;

/// The text of a pattern denotes its value, and for a byte that of its bits without a sign: its digits, read as one
/// number, over 10 to the power of how many stand after the point, or `1.H` in hexadecimal times 2 to the power of `E`.
pub fn text_denotes(p: Pattern)
    requires { IsPattern p }
    ensures { Denotes (pattern_text p) (shown_value p.kind p.bits) }
{}

/// Two patterns of one kind with the same text have the same value. All NaNs are one value.
pub fn text_has_one_value(p: Pattern, q: Pattern)
    requires first { IsPattern p }
    requires second { IsPattern q }
    ensures { p.kind ≡ q.kind → pattern_text p ≡ pattern_text q
        → pattern_value p ≡ pattern_value q }
{}

/// Two texts that are the same between quotation marks are the same.
pub fn quoted_has_one_text(a: &[u8], b: &[u8])
    ensures { quoted a.now ≡ quoted b.now → a.now ≡ b.now }
{}

/// A number has one odd part and one exponent: where `a * 2^d` and `b * 2^e` are the same number, `a` is `b` and `d` is
/// `e`. The two are compared as whole numbers, `i` above the exponent `d` and `j` above the exponent `e`.
pub fn odd_part_is_one(a: u64, d: i32, i: u32, b: u64, e: i32, j: u32)
    requires first { a % 2 ≡ 1 }
    requires second { b % 2 ≡ 1 }
    requires level { d +ℤ pos j ≡ e +ℤ pos i }
    ensures odd { a * 2 ^ i ≡ b * 2 ^ j → a ≡ b }
    ensures exponent { a * 2 ^ i ≡ b * 2 ^ j → d ≡ e }
{}

/// A number without its factors of two is odd, and times these factors it is the number.
pub fn odd_part_is_odd(n: u64)
    requires { 0 < n }
    ensures odd { n / 2 ^ trailing_zeros w64 n % 2 ≡ 1 }
    ensures whole { n / 2 ^ trailing_zeros w64 n * 2 ^ trailing_zeros w64 n ≡ n }
{}

/// The bits that are made of a sign, an exponent and a fraction stand for the number of these fields.
pub fn fields_are_read_back(
    width: u32,
    fraction_width: u32,
    negative: bool,
    biased: u64,
    fraction: u64,
)
    requires exponent { biased < 2 ^ width }
    requires significand { fraction < 2 ^ fraction_width }
    ensures { float_value width fraction_width
        (bits_of_fields width fraction_width negative biased fraction)
        ≡ value_of_fields width fraction_width negative biased fraction }
{}

/// All bits are made of a sign, an exponent and a fraction.
pub fn bits_have_fields(width: u32, fraction_width: u32, bits: u64)
    requires { bits < 2 * 2 ^ (width + fraction_width) }
    ensures { bits ≡ bits_of_fields width fraction_width
        (nat_le (2 ^ (width + fraction_width)) bits)
        (bits / 2 ^ fraction_width % 2 ^ width) (bits % 2 ^ fraction_width) }
{}
