//! Addresses and ports as the bits of a frame.

#![tactic(auto)]

ghost use Rattle.std.specs.Prelude.{◌≡◌};
ghost use Rattle.bits.specs.Frames.{frame_bytes, first_bits_of, value_bytes, care_bytes};

use engine::assignment::{Assignment, BYTES};

// The number of bytes of an address.
const ADDRESS_BYTES: usize = 16;

// The number of bits of an address.
const ADDRESS_BITS: u32 = 128;

// The bytes of an address and then of a port, high byte first.
fn frame(address: u128, port: u16) -> Assignment
    ensures { result ≡ frame_bytes address port }
{
    let a = address.to_be_bytes();
    let p = port.to_be_bytes();
    let mut bytes = [0; BYTES];
    bytes[0..ADDRESS_BYTES].copy_from_slice(&a);
    bytes[ADDRESS_BYTES..BYTES].copy_from_slice(&p);
    bytes
}

// An address of which the first `length` bits are set.
fn first_bits(length: u32) -> u128
    ensures { result ≡ first_bits_of length }
{
    if length == 0 {
        return 0;
    }
    if length > ADDRESS_BITS {
        return u128::MAX;
    }
    u128::MAX - ((1 << (ADDRESS_BITS - length)) - 1)
}

// The value of a rule for an address and a port; without a port its bits are 0.
pub fn value(address: u128, port: Option<u16>) -> Assignment
    ensures { result ≡ value_bytes address port }
{
    frame(address, port.unwrap_or(0))
}

// The bits that count: the first `length` of the address, all of them without a length, and those of a port.
pub fn care(length: Option<u32>, port: Option<u16>) -> Assignment
    ensures { result ≡ care_bytes length port }
{
    let address = length.map_or(u128::MAX, first_bits);
    frame(address, port.map_or(0, |_| u16::MAX))
}
