//! The codes of names, by which the files of a name are looked up.
ghost use Rattle.std.specs.Prelude.{◌≡◌, ◌<◌};
ghost use Rattle.fm_list.specs.Code as spec;

// The code of a name. Its lower and its upper bits differ among names that differ in a few bytes.
#[tactic(auto, unfolding(crate::specs::Code::code_from))]
fn bits_of(name: &[u8]) -> usize
    ensures value { result ≡ spec.code_from 0 name.now }
    ensures small { result < 67_108_864 }
{
    let mut left = name;
    let mut code = 0;
    while let [byte, others @ ..] = left {
        code = (code * 1_048_583 + usize::from(*byte)) % 67_108_864;
        left = others;
    }
    code
}

/// The code of a name. Two names may have one code.
#[tactic(auto, unfolding(crate::specs::Code::code_of))]
pub fn code_of(name: &[u8]) -> i64
    ensures { result ≡ spec.code_of name.now }
{
    bits_of(name) as i64
}
