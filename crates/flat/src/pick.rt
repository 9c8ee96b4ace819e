ghost use Rattle.std.specs.Prelude.{◌≡◌, ◌≤◌, IfOk};

use kind::fault::FlatFault;
use text::fields::Field;

// What a field for from or to says: a number, or none where any will do.
#[derive(Clone, Copy, Debug, PartialEq, Eq)]
pub struct Pick {
    pub number: Option<u8>,
}

impl Pick {
    ghost use Rattle.flat.specs.Picks.{pick_of, picked, counted};

    // kept: a field is a text to be read and no other form of the value; `try_from` would not say so
    // The pick that a field says: `*`, or a digit 0 to 7.
    pub fn read(field: Field<'_>) -> Result<Pick, FlatFault>
        ensures value { result ≡ pick_of field.entry.text.now field.entry.place }
        ensures bound { IfOk result (λ p. picked p ≤ 7) }
    {
        match field.text {
            b"*" => Ok(Pick { number: None }),
            [c @ b'0'..=b'7'] => Ok(Pick {
                number: Some(*c - b'0'),
            }),
            _ => Err(FlatFault::Digit(field.place)),
        }
    }

    // The three bits of the number; 0 where any will do.
    pub fn value(self) -> u8
        ensures { result ≡ picked self }
    {
        self.number.unwrap_or(0)
    }

    // Which of the three bits count: all, or none where any number will do.
    pub fn care(self) -> u8
        ensures { result ≡ counted self }
    {
        self.number.map_or(0, |_| 7)
    }
}
