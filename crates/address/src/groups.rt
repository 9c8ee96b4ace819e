ghost use Rattle.std.specs.Prelude.{◌≡◌, ◌+◌, ◌-◌, ◌*◌, ◌^◌, ◌<◌, ◌≤◌, min, drop, Err, MatchResult};
ghost use Rattle.text.specs.Split.{part, left, split};
ghost use Rattle.address.specs.Address.{group_at, groups, side};

use crate::fault::GroupFault;
use text::fields::{Field, Reader};
use text::numerals::read_group;

// What stands between two groups.
const COLON: u8 = b':';

// The number of groups of an address.
pub(crate) const GROUPS: usize = 8;

// kept: no buffer with a length, but the number that is written and how many groups write it
// The groups that have been read: how many, up to 9, and the number that they write.
#[derive(Clone, Copy)]
pub(crate) struct Groups {
    pub(crate) value: u128,
    pub(crate) count: usize,
    ghost few: { count ≤ 9 },
    ghost fits: { value < 65536 ^ count },
}

// The value of a piece.
fn group(piece: Field<'_>) -> Result<u16, GroupFault>
    ensures { result ≡ group_at (part piece.entry) }
{
    read_group(piece.text).ok_or(GroupFault::Piece(piece.place))
}

impl Groups {
    ghost use Rattle.address.specs.Gathered.{Gathered};

    // No groups.
    fn new() -> Groups
        ensures { (result.value ≡ 0) × (result.count ≡ 0) }
    {
        Groups { value: 0, count: 0 }
    }

    // One group more.
    fn push(&mut self, v: u16)
        ensures value { self.old.count < 8 → self.new.value ≡ self.old.value * 65536 + v }
        ensures count { self.new.count ≡ min (self.old.count + 1) 9 }
    {
        if self.count < GROUPS {
            self.value = self.value * 65536 + v as u128;
            self.count += 1;
        } else {
            self.count = 9;
        }
    }

    // The groups that the pieces of a text are.
    fn read(pieces: Reader<'_>) -> Result<Groups, GroupFault>
        ensures { MatchResult result (λ g. Gathered g (groups (left pieces.entry))) (λ e. groups (left pieces.entry) ≡ Err e) }
    {
        let mut all = Groups::new();
        for piece in pieces {
            all.push(group(piece)?);
        }
        Ok(all)
    }

    // The groups of a text, which is split at each `:`.
    pub(crate) fn read_text(text: &[u8]) -> Result<Groups, GroupFault>
        ensures { MatchResult result (λ g. Gathered g (groups (split 58 0 text.now))) (λ e. groups (split 58 0 text.now) ≡ Err e) }
    {
        Groups::read(Reader::new(text, COLON))
    }

    // kept: a reader has to know that places fit the machine, which a text and a start in it give, and a `Field` does not
    // The groups of a side of `::`, from `start` on; an empty side has none.
    pub(crate) fn read_side(text: &[u8], start: usize) -> Result<Groups, GroupFault>
        ensures { MatchResult result (λ g. Gathered g (groups (side start (drop start text.now)))) (λ e. groups (side start (drop start text.now)) ≡ Err e) }
    {
        if start >= text.len() {
            return Ok(Groups::new());
        }
        Groups::read(Reader::starting(text, start, COLON))
    }

    // Eight groups: these, then groups of zero, then those of the back.
    pub(crate) fn join(self, back: Groups) -> u128
        requires { self.count + back.count ≤ 7 }
        ensures { result ≡ self.value * 65536 ^ (8 - self.count) + back.value }
    {
        if self.count == 0 {
            return back.value;
        }
        (self.value << (16 * (GROUPS - self.count))) + back.value
    }
}
