ghost use Rattle.std.specs.Prelude.{◌≡◌, ◌<◌, length, drop, IfSome};
ghost use Rattle.std.specs.Iterator.{YieldsFirstBy, item_count};
ghost use Rattle.text.specs.Split.{place_of, split, left, part};

use crate::fields::{Field, Reader};

// The index of the first `c`.
pub fn find_byte(text: &[u8], c: u8) -> Option<usize>
    ensures is { result ≡ place_of c text.now }
    ensures within { IfSome result (λ i. i < length text.now) }
{
    text.iter().position(|b| *b == c)
}

// The text from `start` on; nothing where it ends before.
fn after(text: &[u8], start: usize) -> &[u8]
    ensures { result.now ≡ drop start text.now }
{
    text.get(start..).unwrap_or_default()
}

impl<'a> Reader<'a> {
    // A reader of the fields of a line that is split at `sep`.
    pub fn new(line: &'a [u8], sep: u8) -> Reader<'a>
        ensures { left result ≡ split sep 0 line.now }
    {
        Reader::starting(line, 0, sep)
    }

    // A reader of the fields of a text from `start` on, with their places in the whole text.
    pub fn starting(text: &'a [u8], start: usize, sep: u8) -> Reader<'a>
        ensures { left result ≡ split sep start (drop start text.now) }
    {
        Reader {
            rest: Some(after(text, start)),
            place: start,
            sep,
        }
    }
}

impl<'a> Iterator for Reader<'a> {
    type Item = Field<'a>;

    ghost next_gives = { YieldsFirstBy part left };

    ghost remaining = { item_count left };

    fn next(&mut self) -> Option<Field<'a>> {
        let rest = self.rest?;
        let place = self.place;
        let Some(n) = find_byte(rest, self.sep) else {
            self.rest = None;
            return Some(Field { text: rest, place });
        };
        self.rest = Some(&rest[n + 1..]);
        self.place = place + n + 1;
        Some(Field {
            text: &rest[..n],
            place,
        })
    }
}
