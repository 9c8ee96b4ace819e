ghost use Rattle.std.specs.Prelude.{◌≡◌, ◌+◌, ◌≤◌, length, drop, IfSome};
ghost use Rattle.text.specs.Split.{split};
ghost use Rattle.address.specs.Address.{groups, gap_of, plain, gapped, side, address, numbered};
ghost use Rattle.address.specs.Grammar.{Spelling, Accepts};
ghost use Rattle.address.specs.Refusals.{AddressRefused, Refuses};
ghost use Rattle.address.specs.Examples.{Examples};

use crate::fault::AddressFault;
use crate::groups::{GROUPS, Groups};

// The most groups beside `::`.
const BESIDE_MAX: usize = 7;

// The index of the first `::`.
fn find_gap(text: &[u8]) -> Option<usize>
    ensures is { result ≡ gap_of text.now }
    ensures within { IfSome result (λ i. i + 2 ≤ length text.now) }
{
    text.windows(2).position(|pair| pair == b"::".as_slice())
}

// The address of a text without `::`.
fn read_plain(text: &[u8]) -> Result<u128, AddressFault>
    ensures { result ≡ numbered (plain (groups (split 58 0 text.now))) }
{
    let all = Groups::read_text(text)?;
    if all.count == GROUPS {
        Ok(all.value)
    } else {
        Err(AddressFault::Count(0))
    }
}

// The address of a text whose `::` stands between the front and `start`.
fn read_gapped(front: &[u8], text: &[u8], start: usize) -> Result<u128, AddressFault>
    ensures { result ≡ numbered (gapped (groups (side 0 front.now)) (groups (side start (drop start text.now)))) }
{
    let front = Groups::read_side(front, 0)?;
    let back = Groups::read_side(text, start)?;
    if front.count + back.count > BESIDE_MAX {
        return Err(AddressFault::Count(0));
    }
    Ok(front.join(back))
}

// The 128 bits of an address text. It is accepted exactly if it is a spelling of some 128 bits.
pub fn read_address(text: &[u8]) -> Result<u128, AddressFault>
    ensures value { result ≡ address text.now }
    ensures grammar { Accepts result (Spelling text.now) }
    ensures refusal { Refuses result (AddressRefused text.now) }
{
    match find_gap(text) {
        Some(gap) => read_gapped(&text[..gap], text, gap + 2),
        None => read_plain(text),
    }
}

// Spellings of one address, and texts that are refused.
pub fn examples_stand()
    ensures { Examples }
{}

#[cfg(test)]
mod tests {
    use super::*;
    use std::process::Abort;

    // Two spellings of one address.
    fn same(rt: &impl Abort, a: &[u8], b: &[u8]) {
        let address = read_address(a);
        assert!(rt; address.is_ok());
        assert_eq!(rt; address, read_address(b));
    }

    #[test]
    fn a_gap_is_groups_of_zero(rt: HostRuntime) {
        same(
            &rt,
            b"2001:DB8:0:0:8:800:200C:417A",
            b"2001:db8::8:800:200c:417a",
        );
        same(&rt, b"FF01:0:0:0:0:0:0:101", b"FF01::101");
        same(&rt, b"0:0:0:0:0:0:0:1", b"::1");
        same(&rt, b"0:0:0:0:0:0:0:0", b"::");
    }

    #[test]
    fn a_second_gap_is_refused(rt: HostRuntime) {
        assert_eq!(rt;
            read_address(b"1::2::3").map_err(|fault| (fault.number(), fault.place())),
            Err((4, 5))
        );
    }
}
