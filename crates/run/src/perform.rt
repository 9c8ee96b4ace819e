ghost use Rattle.std.specs.Prelude.{◌≡◌, replicate};
ghost use Rattle.filter.specs.Calls.{comparing};
ghost use Rattle.filter.specs.Turns.{Turns};
ghost use Rattle.run.specs.Calls.{asked, fronted};

use crate::call::Call;
use engine::assignment::{Assignment, BYTES};
use engine::calls::DecidingEngine;
use filter::answer::{Answer, Comparison, Reply};
use filter::filter::Filter;
use kind::kind::Kind;

// The first bytes of a place, and zeros behind them.
fn first_bytes(place: &Assignment, size: u8) -> Assignment
    ensures { result ≡ fronted size place.now }
{
    let size = usize::from(size).min(BYTES);
    let mut bytes = [0; BYTES];
    bytes[..size].copy_from_slice(&place[..size]);
    bytes
}

// A compare into a copy of the place; the answer shows the frame alone.
fn compare<K: Kind, E: DecidingEngine>(filter: &mut Filter<K, E>, place: &Assignment) -> Answer
    ensures { Turns E.Engine.rooms E.Engine.view K.Kind.reading (comparing (replicate 18 0)) filter.old filter.new result }
{
    let mut copy = *place;
    Ok(match filter.compare(&mut copy)? {
        Comparison::Alike => Reply::Alike,
        Comparison::Differs => Reply::Differs(first_bytes(&copy, filter.frame_size())),
    })
}

// One call.
pub fn perform<K: Kind, E: DecidingEngine>(filter: &mut Filter<K, E>, call: &Call) -> Answer
    ensures { Turns E.Engine.rooms E.Engine.view K.Kind.reading (asked call.now) filter.old filter.new result }
{
    match call {
        Call::Add(line) => Ok(Reply::Added(filter.add(line)?)),
        Call::Withdraw(number) => {
            filter.withdraw(*number)?;
            Ok(Reply::Withdrawn)
        }
        Call::Commit => {
            filter.commit()?;
            Ok(Reply::Committed)
        }
        Call::Judge(frame) => Ok(Reply::Verdict(filter.judge(frame)?)),
        Call::Compare(place) => compare(filter, place),
    }
}
