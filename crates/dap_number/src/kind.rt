//! Numbers as XDR, by their kind.
ghost use Rattle.std.specs.Prelude.{◌≡◌, ◌-◌, drop, length, min};
ghost use Rattle.dap_model.specs.Xdr.{element_bytes, element_len, number_bytes, number_len, AreBitsOf};
ghost use Rattle.dap_number.specs.Overlay.{overlay};

use crate::writing::put;
use dap_model::DapKind;

/// How many bytes an element of an array takes.
#[tactic(auto, unfolding(dap_model::specs::Xdr::element_len))]
pub fn element_len(kind: DapKind) -> u64
    ensures { result ≡ element_len kind }
{
    match kind {
        DapKind::Text => 0,
        DapKind::Byte => 1,
        DapKind::Int16 | DapKind::Int32 | DapKind::Float32 => 4,
        DapKind::Float64 => 8,
    }
}

/// A number of two bytes in four, with its sign.
#[tactic(auto, unfolding(dap_model::specs::Xdr::number_bytes))]
pub fn widened(bits: u16) -> [u8; 4]
    ensures { result ≡ number_bytes DapKind.Int16 bits }
{
    i32::from(bits.cast_signed()).cast_unsigned().to_be_bytes()
}

/// Writes the bytes of an element of an array from an offset on.
#[tactic(auto, unfolding(dap_model::specs::Xdr::element_bytes, dap_model::specs::Xdr::number_bytes, dap_model::specs::Xdr::bits_in))]
pub fn put_element(kind: DapKind, bits: u64, from: u64, out: &mut [u8]) -> usize
    requires { AreBitsOf kind bits }
    ensures count { result ≡ min (length out.old) (length (element_bytes kind bits) - from) }
    ensures bytes { out.new ≡ overlay (drop from (element_bytes kind bits)) out.old }
{
    match kind {
        DapKind::Text => put(&[], from, out),
        DapKind::Byte => put(&[bits as u8], from, out),
        DapKind::Int16 => put(&widened(bits as u16), from, out),
        DapKind::Int32 | DapKind::Float32 => put(&(bits as u32).to_be_bytes(), from, out),
        DapKind::Float64 => put(&bits.to_be_bytes(), from, out),
    }
}

/// Writes the bytes of a number alone from an offset on: a byte alone takes four.
#[tactic(auto, unfolding(dap_model::specs::Xdr::number_bytes, dap_model::specs::Xdr::bits_in))]
pub fn put_number(kind: DapKind, bits: u64, from: u64, out: &mut [u8]) -> usize
    requires { AreBitsOf kind bits }
    ensures count { result ≡ min (length out.old) (length (number_bytes kind bits) - from) }
    ensures bytes { out.new ≡ overlay (drop from (number_bytes kind bits)) out.old }
{
    match kind {
        DapKind::Text => put(&[], from, out),
        DapKind::Int16 => put(&widened(bits as u16), from, out),
        DapKind::Byte | DapKind::Int32 | DapKind::Float32 => put(
            &(bits as u32).to_be_bytes(),
            from,
            out,
        ),
        DapKind::Float64 => put(&bits.to_be_bytes(), from, out),
    }
}

/// How many bytes a number alone takes.
#[tactic(auto, unfolding(dap_model::specs::Xdr::number_len))]
pub fn number_len(kind: DapKind) -> u64
    ensures { result ≡ number_len kind }
{
    match kind {
        DapKind::Text => 0,
        DapKind::Byte | DapKind::Int16 | DapKind::Int32 | DapKind::Float32 => 4,
        DapKind::Float64 => 8,
    }
}
