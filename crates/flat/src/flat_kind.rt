ghost use Rattle.std.specs.Prelude.{◌≡◌, ◌≤◌};
ghost use Rattle.text.specs.Lines.{parts};
ghost use Rattle.flat.specs.Picks.{picked};
ghost use Rattle.flat.specs.Lines.{rule_of, fields_rule};
ghost use Rattle.flat.specs.Frames.{first};
ghost use Rattle.flat.specs.Reading.{flat};
ghost use Rattle.flat.specs.Examples.{Examples};
ghost use Rattle.flat.specs.Laws.{flat_lawful};
ghost use Rattle.std.proofs.Common.{rules};

use crate::pick::Pick;
use engine::assignment::{Assignment, BYTES};
use kind::fault::{FrameFault, RuleFault};
use kind::kind::Kind;
use kind::rule::{Action, Rule};
use text::fault::LineFault;
use text::line::{Fields, read_fields};

// The number of bits of a flat frame.
const BITS: u8 = 6;

// The number of bytes of a flat frame.
const SIZE: u8 = 1;

// The number of flat frames: each byte below it is one.
const FRAMES: u8 = 64;

// The kind whose frames are one byte, from × 8 + to, each 0 to 7.
#[derive(Clone, Copy, Debug, PartialEq, Eq)]
pub struct FlatKind;

// An assignment of this first byte; the other bytes are 0.
fn first_byte(b: u8) -> Assignment
    ensures { result ≡ first b }
{
    let mut bits = [0; BYTES];
    bits[0] = b;
    bits
}

// The rule for the frames of these picks.
fn rule(action: Action, from: Pick, to: Pick) -> Rule
    requires { (picked from ≤ 7) × (picked to ≤ 7) }
    ensures { result ≡ rule_of action from to }
{
    let value = first_byte(from.value() * 32 + to.value() * 4);
    let care = first_byte(from.care() * 32 + to.care() * 4);
    Rule {
        action,
        value,
        care,
    }
}

// The rule that the fields of a line say; the line ends at `end`.
fn read_rule(fields: Fields<'_>, end: usize) -> Result<Rule, RuleFault>
    ensures { result ≡ fields_rule end (parts fields.entry) }
{
    let third = fields.third.ok_or(LineFault::Fields(end))?;
    let action = Action::read(fields.action)?;
    let from = Pick::read(fields.second)?;
    let to = Pick::read(third)?;
    Ok(rule(action, from, to))
}

impl Kind for FlatKind {
    ghost reading = { flat };

    ghost few = { Prim.search rules };

    ghost lawful = { flat_lawful };

    fn bits(&self) -> u8 {
        BITS
    }

    fn size(&self) -> u8 {
        SIZE
    }

    fn read(&self, line: &[u8]) -> Result<Rule, RuleFault> {
        let fields = read_fields(line)?;
        read_rule(fields, line.len())
    }

    fn turn(&self, frame: &[u8]) -> Result<Assignment, FrameFault> {
        match frame {
            [b] if *b < FRAMES => Ok(first_byte(*b * 4)),
            _ => Err(FrameFault::Wrong),
        }
    }

    #[tactic(auto, using(crate::specs::Spelling::written))]
    fn back(&self, bits: &Assignment, place: &mut Assignment) {
        place[0] = bits[0] / 4;
    }
}

// Rule lines that are read, and rule lines that are refused.
pub fn examples_stand()
    ensures { Examples }
{}

#[cfg(test)]
mod tests {
    use super::*;
    use std::test::Fail;

    #[test]
    fn any_counts_no_bits(rt: HostRuntime) {
        let read = FlatKind.read(b"block 3 *");
        assert_eq!(rt;
            read.map(|rule| (rule.value[0], rule.care[0])),
            Ok((0x60, 0xe0))
        );
    }

    #[test]
    fn a_fault_has_its_place(rt: HostRuntime) {
        let read = FlatKind.read(b"pass 9 1");
        assert_eq!(rt;
            read.map_err(|fault| (fault.number(), fault.place())),
            Err((9, 5))
        );
    }

    #[test]
    fn frames_turn_and_come_back(rt: HostRuntime) -> Result<(), Fail> {
        let bits = FlatKind.turn(&[27]).map_err(|_| Fail::new("refused"))?;
        let mut place = [0; BYTES];
        FlatKind.back(&bits, &mut place);
        assert_eq!(rt; place[0], 27);
        assert!(rt; FlatKind.turn(&[64]).is_err());
        Ok(())
    }
}
