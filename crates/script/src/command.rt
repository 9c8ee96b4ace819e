ghost use Rattle.std.specs.Prelude.{◌≡◌};
ghost use Rattle.std.specs.Option.{option_map};
ghost use Rattle.script.specs.Commands.{ok_map, alone, with_rest, with_argument, kind_of, read_of, size_of, engine_of, box_of, worded, command_of, halves, shown};

use crate::decimal::decimal;
use text::split::find_byte;

// The byte between two words.
const SPACE: u8 = b' ';

// The byte that begins a comment.
const COMMENT: u8 = b'#';

// The name of a kind of frame.
#[derive(Clone, Copy, Debug, PartialEq, Eq)]
pub enum KindName {
    Flat,
    Ipv6,
}

// What a line of a script asks for.
#[derive(Clone, Copy, Debug, PartialEq, Eq)]
pub enum Command<'a> {
    // the rule of a rule line of this kind, given in hexadecimal
    Read(KindName, &'a [u8]),
    // a new filter of this kind on a word engine, of so many variables where a number is given
    Filter(KindName, Option<usize>),
    Add(&'a [u8]),
    AddHex(&'a [u8]),
    Judge(&'a [u8]),
    Withdraw(usize),
    Commit,
    Compare,
}

// A line is no command.
#[derive(Clone, Copy, Debug, PartialEq, Eq)]
pub struct BadCommand;

// A command of one word.
fn read_alone(word: &[u8]) -> Result<Command<'_>, BadCommand>
    ensures { ok_map shown result ≡ alone word.now }
{
    match word {
        b"commit" => Ok(Command::Commit),
        b"compare" => Ok(Command::Compare),
        _ => Err(BadCommand),
    }
}

// The text before the first space and the text behind it, where there is one.
fn halve(text: &[u8]) -> Option<(&[u8], &[u8])>
    ensures { option_map (λ h. (h.0.now, h.1.now)) result ≡ halves text.now }
{
    let at = find_byte(text, SPACE)?;
    Some((&text[..at], &text[at + 1..]))
}

// The kind that a word names.
fn read_kind(word: &[u8]) -> Result<KindName, BadCommand>
    ensures { result ≡ kind_of word.now }
{
    match word {
        b"flat" => Ok(KindName::Flat),
        b"ipv6" => Ok(KindName::Ipv6),
        _ => Err(BadCommand),
    }
}

// The rest of a read: a kind, and a line in hexadecimal.
fn read_read(rest: &[u8]) -> Result<Command<'_>, BadCommand>
    ensures { ok_map shown result ≡ read_of rest.now }
{
    let (kind, line) = halve(rest).ok_or(BadCommand)?;
    Ok(Command::Read(read_kind(kind)?, line))
}

// The number of variables: `n`, and a number.
fn read_size(text: &[u8]) -> Result<usize, BadCommand>
    ensures { result ≡ size_of text.now }
{
    match halve(text) {
        Some((b"n", number)) => decimal(number).ok_or(BadCommand),
        _ => Err(BadCommand),
    }
}

// The engine, and its number of variables where one is given.
fn read_engine(text: &[u8]) -> Result<Option<usize>, BadCommand>
    ensures { result ≡ engine_of text.now }
{
    match halve(text) {
        Some((b"word", size)) => Ok(Some(read_size(size)?)),
        None if text == b"word".as_slice() => Ok(None),
        _ => Err(BadCommand),
    }
}

// The rest of a box: the kind, and then the engine.
fn read_box(rest: &[u8]) -> Result<Command<'_>, BadCommand>
    ensures { ok_map shown result ≡ box_of rest.now }
{
    let (kind, engine) = halve(rest).ok_or(BadCommand)?;
    Ok(Command::Filter(read_kind(kind)?, read_engine(engine)?))
}

// A command of a word and an argument that is read in turn.
fn read_argument<'a>(word: &[u8], rest: &'a [u8]) -> Result<Command<'a>, BadCommand>
    ensures { ok_map shown result ≡ with_argument word.now rest.now }
{
    match word {
        b"withdraw" => Ok(Command::Withdraw(decimal(rest).ok_or(BadCommand)?)),
        b"read" => read_read(rest),
        b"box" => read_box(rest),
        _ => Err(BadCommand),
    }
}

// A command of a word and the rest of its line.
fn read_rest<'a>(word: &[u8], rest: &'a [u8]) -> Result<Command<'a>, BadCommand>
    ensures { ok_map shown result ≡ with_rest word.now rest.now }
{
    match word {
        b"add" => Ok(Command::Add(rest)),
        b"addhex" => Ok(Command::AddHex(rest)),
        b"judge" => Ok(Command::Judge(rest)),
        _ => read_argument(word, rest),
    }
}

// What a line with a command asks for.
fn read_words(line: &[u8]) -> Result<Command<'_>, BadCommand>
    ensures { ok_map shown result ≡ worded line.now }
{
    match halve(line) {
        Some((word, rest)) => read_rest(word, rest),
        None => read_alone(line),
    }
}

// What a line asks for; nothing where it is empty or a comment.
pub fn read_command(line: &[u8]) -> Result<Option<Command<'_>>, BadCommand>
    ensures { ok_map (option_map shown) result ≡ command_of line.now }
{
    match line {
        [] | [COMMENT, ..] => Ok(None),
        _ => Ok(Some(read_words(line)?)),
    }
}
