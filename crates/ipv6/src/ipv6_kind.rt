ghost use Rattle.ipv6.specs.Reading.{ipv6};
ghost use Rattle.ipv6.specs.Laws.{ipv6_lawful};
ghost use Rattle.std.proofs.Common.{rules};

use crate::line::read_line;
use engine::assignment::{Assignment, BYTES};
use kind::fault::{FrameFault, RuleFault};
use kind::kind::Kind;
use kind::rule::Rule;

// The number of bits of an IPv6 frame.
const BITS: u8 = 144;

// The number of bytes of an IPv6 frame.
const SIZE: u8 = 18;

// The kind whose frames are 16 address bytes and then the port, high byte first.
#[derive(Clone, Copy, Debug, PartialEq, Eq)]
pub struct Ipv6Kind;

impl Kind for Ipv6Kind {
    ghost reading = { ipv6 };

    ghost few = { Prim.search rules };

    ghost lawful = { ipv6_lawful };

    fn bits(&self) -> u8 {
        BITS
    }

    fn size(&self) -> u8 {
        SIZE
    }

    fn read(&self, line: &[u8]) -> Result<Rule, RuleFault> {
        read_line(line)
    }

    fn turn(&self, frame: &[u8]) -> Result<Assignment, FrameFault> {
        Assignment::try_from(frame).map_err(|_| FrameFault::Wrong)
    }

    #[tactic(auto, using(crate::specs::Laws::copied))]
    fn back(&self, bits: &Assignment, place: &mut Assignment) {
        let bytes = bits.as_slice();
        place.copy_from_slice(bytes);
    }
}

#[cfg(test)]
mod tests {
    use super::*;
    use std::test::Fail;

    #[test]
    fn a_prefix_and_a_port_are_read(rt: HostRuntime) {
        let read = Ipv6Kind.read(b"block 2001:DB8::/32 443");
        let bytes = read.map(|rule| {
            let (v, c) = (rule.value, rule.care);
            [v[3], v[16], v[17], c[3], c[4], c[17]]
        });
        assert_eq!(rt; bytes, Ok([0xb8, 0x01, 0xbb, 0xff, 0, 0xff]));
    }

    #[test]
    fn a_port_has_its_place(rt: HostRuntime) {
        let read = Ipv6Kind.read(b"pass ::1 65536");
        assert_eq!(rt;
            read.map_err(|fault| (fault.number(), fault.place())),
            Err((8, 9))
        );
    }

    #[test]
    fn frames_turn_and_come_back(rt: HostRuntime) -> Result<(), Fail> {
        let frame = [7; BYTES];
        let bits = Ipv6Kind.turn(&frame).map_err(|_| Fail::new("refused"))?;
        let mut place = [0; BYTES];
        Ipv6Kind.back(&bits, &mut place);
        assert_eq!(rt; place[17], 7);
        assert!(rt; Ipv6Kind.turn(&frame[1..]).is_err());
        Ok(())
    }
}
