#![tactic(auto)]

mod session;
mod show;

use session::Session;
use std::io;
use std::io::Read;
use text::fields::Reader;

// Byte 10 ends a line of the script.
const LINE_END: u8 = 10;

// Reads a script and prints the answer of each of its lines.
fn main(rt: HostRuntime) -> io::Result<()> {
    let mut script = Vec::new(rt.alloc());
    rt.stdin().read_to_end(&mut script)?;
    let mut session = Session::new();
    for line in Reader::new(script.as_slice(), LINE_END) {
        session.obey(&rt, line.text)?;
    }
    Ok(())
}
