ghost use Rattle.std.specs.Prelude.{◌≡◌, length};
ghost use Rattle.text.specs.Split.{split};
ghost use Rattle.text.specs.Lines.{first_empty, two_or_three_of, line_fields, shown};

use crate::fault::LineFault;
use crate::fields::{Field, Reader};

// The most bytes of a rule line.
pub const LINE_MAX: usize = 80;

// What stands between two fields.
const SPACE: u8 = b' ';

// The two or three fields of a rule line.
#[derive(Clone, Copy, Debug, PartialEq, Eq)]
pub struct Fields<'a> {
    pub action: Field<'a>,
    pub second: Field<'a>,
    pub third: Option<Field<'a>>,
}

// The place of the first empty field.
fn empty_field(line: &[u8]) -> Option<usize>
    ensures { result ≡ first_empty (split 32 0 line.now) }
{
    Reader::new(line, SPACE)
        .find(|field| field.text.is_empty())
        .map(|field| field.place)
}

// The fields of a line, if there are two or three.
fn two_or_three(line: &[u8]) -> Result<Fields<'_>, LineFault>
    ensures { shown result ≡ two_or_three_of (length line.now) (split 32 0 line.now) }
{
    let mut fields = Reader::new(line, SPACE);
    let action = fields.next().ok_or(LineFault::Fields(line.len()))?;
    let second = fields.next().ok_or(LineFault::Fields(line.len()))?;
    let third = fields.next();
    if let Some(surplus) = fields.next() {
        return Err(LineFault::Fields(surplus.place));
    }
    Ok(Fields {
        action,
        second,
        third,
    })
}

// The fields of a rule line: first its length is tested, then that no field is empty, then their number.
pub fn read_fields(line: &[u8]) -> Result<Fields<'_>, LineFault>
    ensures { shown result ≡ line_fields line.now }
{
    if line.is_empty() || line.len() > LINE_MAX {
        return Err(LineFault::Length);
    }
    if let Some(place) = empty_field(line) {
        return Err(LineFault::Fields(place));
    }
    two_or_three(line)
}

#[cfg(test)]
mod tests {
    use super::*;

    #[test]
    fn a_line_of_80_bytes_is_read(rt: HostRuntime) {
        let mut line = [b'x'; 81];
        line[5] = b' ';
        assert!(rt; read_fields(&line[0..80]).is_ok());
        assert!(rt; read_fields(&line).is_err());
    }
}
