use crate::show::{Bits, Refusal, Shown};
use engine::assignment::BYTES;
use filter::filter::Filter;
use flat::flat_kind::FlatKind;
use ipv6::ipv6_kind::Ipv6Kind;
use kind::kind::Kind;
use run::call::Call;
use run::perform::perform;
use script::command::{BadCommand, Command, KindName, read_command};
use std::io;
use text::hex::decode;
use word::word::WordEngine;

// A filter of one of the kinds.
#[derive(Drop)]
enum Opened {
    Flat(Filter<FlatKind, WordEngine>),
    Ipv6(Filter<Ipv6Kind, WordEngine>),
}

// The filter that a script works on; there is none before the script's first box.
#[derive(Drop)]
pub struct Session {
    filter: Option<Opened>,
}

// A filter of this kind on a word engine of so many variables, the kind's where no number is given.
fn new_filter<K: Kind>(kind: K, n: Option<usize>) -> Filter<K, WordEngine> {
    let n = n.map_or(kind.bits(), |n| u8::try_from(n).unwrap_or(u8::MAX));
    Filter::new(kind, WordEngine::new(n))
}

// One call of a filter, and its answer.
fn answered<K: Kind>(filter: &mut Filter<K, WordEngine>, call: &Call) -> Shown {
    Shown {
        answer: perform(filter, call),
        size: filter.frame_size(),
    }
}

impl Opened {
    // A new filter of the kind of this name.
    fn new(kind: KindName, n: Option<usize>) -> Opened {
        match kind {
            KindName::Flat => Opened::Flat(new_filter(FlatKind, n)),
            KindName::Ipv6 => Opened::Ipv6(new_filter(Ipv6Kind, n)),
        }
    }

    // One call of the filter, and its answer.
    fn perform(&mut self, call: &Call) -> Shown {
        match self {
            Opened::Flat(filter) => answered(filter, call),
            Opened::Ipv6(filter) => answered(filter, call),
        }
    }
}

// The answer to a line that is no command, or whose command cannot be carried out.
fn refuse(rt: &HostRuntime) -> io::Result<()> {
    println!(rt; "bad command")
}

// What is done with the bytes of hexadecimal text; other text is refused.
fn decoded<F: FnOnce(&[u8]) -> io::Result<()>>(
    rt: &HostRuntime,
    text: &[u8],
    act: F,
) -> io::Result<()>
    requires { F.IsAlwaysCallable act }
{
    match decode(rt.alloc(), text)? {
        Some(bytes) => act(bytes.as_slice()),
        None => refuse(rt),
    }
}

// The rule of a line of this kind.
fn read(rt: &HostRuntime, kind: KindName, line: &[u8]) -> io::Result<()> {
    let read = match kind {
        KindName::Flat => FlatKind.read(line),
        KindName::Ipv6 => Ipv6Kind.read(line),
    };
    match read {
        Ok(rule) => println!(rt; "{}", Bits(rule)),
        Err(fault) => println!(rt; "{}", Refusal(fault.into())),
    }
}

impl Session {
    // A session before its first box.
    pub fn new() -> Session {
        Session { filter: None }
    }

    // kept: the runtime is a parameter and no field, as what may print is to be seen where it is called
    // One call of the session's filter, and its answer.
    fn ask(&mut self, rt: &HostRuntime, call: &Call) -> io::Result<()> {
        let Some(filter) = &mut self.filter else {
            return refuse(rt);
        };
        println!(rt; "{}", filter.perform(call))
    }

    // A frame that is given in hexadecimal is judged; other text is no frame.
    fn judge(&mut self, rt: &HostRuntime, text: &[u8]) -> io::Result<()> {
        let frame = decode(rt.alloc(), text)?;
        self.ask(rt, &Call::Judge(frame.as_deref().unwrap_or_default()))
    }

    // A command is carried out, and its answer printed.
    fn carry_out(&mut self, rt: &HostRuntime, command: Command) -> io::Result<()> {
        match command {
            Command::Read(kind, text) => decoded(rt, text, |line| read(rt, kind, line)),
            Command::Filter(kind, n) => {
                self.filter = Some(Opened::new(kind, n));
                println!(rt; "ready")
            }
            Command::Add(line) => self.ask(rt, &Call::Add(line)),
            Command::AddHex(text) => decoded(rt, text, |line| self.ask(rt, &Call::Add(line))),
            Command::Judge(text) => self.judge(rt, text),
            Command::Withdraw(number) => self.ask(rt, &Call::Withdraw(number)),
            Command::Commit => self.ask(rt, &Call::Commit),
            Command::Compare => self.ask(rt, &Call::Compare([0; BYTES])),
        }
    }

    // What a line of the script asks for is done, and its answer printed.
    pub fn obey(&mut self, rt: &HostRuntime, line: &[u8]) -> io::Result<()> {
        match read_command(line) {
            Ok(Some(command)) => self.carry_out(rt, command),
            Ok(None) => Ok(()),
            Err(BadCommand) => refuse(rt),
        }
    }
}
