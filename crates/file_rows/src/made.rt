//! Files that are made.
ghost use Rattle.std.specs.Prelude.{◌<◌};

use fm_base::NoMemory;
use fm_gen::make_file;
use row_text::Said;
use std::alloc::Global;

/// Puts the length and the sum of the file of the seed and the number, below 400, that some words are. It is false
/// where they are none.
pub fn put_made(alloc: Global, words: &str, out: &mut Said) -> bool {
    match seed_and_number(words) {
        Some((seed, k)) if k < 400 => {
            put_file(alloc, seed, k, out);
            true
        }
        _ => false,
    }
}

fn seed_and_number(words: &str) -> Option<(u32, u32)> {
    let (seed, k) = words.split_once(' ')?;
    Some((number(seed)?, number(k)?))
}

fn number(word: &str) -> Option<u32> {
    word.parse::<u32>().ok()
}

fn put_file(alloc: Global, seed: u32, k: u32, out: &mut Said)
    requires { k < 400 }
{
    match make_file(alloc, seed, k) {
        Ok(file) => {
            put_sum(file.as_slice(), out);
            drop(file);
        }
        Err(NoMemory) => out.run_short(),
    }
}

fn put_sum(file: &[u8], out: &mut Said) {
    out.put_number("", file.len());
    out.put(" bytes, sum ");
    out.put_hex(&adler_of(file).to_be_bytes());
}

// The sum of RFC 1950 (Adler-32).
fn adler_of(bytes: &[u8]) -> u32 {
    let mut low: u32 = 1;
    let mut high: u32 = 0;
    for byte in bytes {
        low = low.wrapping_add(u32::from(*byte)) % 65_521;
        high = high.wrapping_add(low) % 65_521;
    }
    high.wrapping_mul(65_536).wrapping_add(low)
}
