//! Texts of a fixed form, and the numbers in them.
ghost use Rattle.std.specs.Prelude.{◌≡◌, ◌+◌, ◌≤◌, length};
ghost use Rattle.nc_model.specs.Stamp as spec;

// Whether a byte stands where a form has `sample`.
fn is_like(sample: u8, byte: u8) -> bool
    ensures { result ≡ spec.is_like sample byte }
{
    if sample == b'0' {
        byte.is_ascii_digit()
    } else {
        byte == sample
    }
}

// Whether a text begins in a form, in which `0` stands for any digit.
#[tactic(auto, using(crate::proofs::FormLemmas::turns))]
pub(crate) fn begins_in_form(form: &[u8], text: &[u8]) -> bool
    ensures { result ≡ spec.begins_in_form form.now text.now }
{
    for (i, sample) in form.iter().enumerate() {
        if i >= text.len() || !is_like(*sample, text[i]) {
            return false;
        }
    }
    true
}

// The number that at most four decimal digits write.
pub(crate) fn number_of(digits: &[u8]) -> u32
    requires { length digits.now ≤ 4 }
    ensures { result ≡ spec.number_of digits.now }
{
    let mut number = 0;
    for digit in digits {
        number = number * 10 + u32::from(digit.saturating_sub(b'0'));
    }
    number
}

// The number that `count` digits write from an offset on.
#[tactic(auto, unfolding(nc_model::specs::Stamp::number_at))]
pub(crate) fn number_at(text: &[u8], from: usize, count: usize) -> u32
    requires short { count ≤ 4 }
    requires within { from + count ≤ length text.now }
    ensures { result ≡ spec.number_at text.now from count }
{
    let (_, rest) = text.split_at(from);
    let (digits, _) = rest.split_at(count);
    number_of(digits)
}
