ghost use Rattle.search.specs.Seeks.{Seeks, Finds};

use crate::places::PLACES;
use engine::assignment::Assignment;
use engine::calls::DecidingEngine;
use engine::fault::EngineFault;
use steps::scratch::{BLOCKED, LIVE};
use steps::settle::or_swept;

// The least frame that the draft and the live book judge differently, if any.
fn seek<E: DecidingEngine>(e: &mut E) -> Result<Option<Assignment>, EngineFault>
    ensures { Seeks E.Engine.rooms (E.Engine.view e.old).vars (E.Engine.view e.old) (E.Engine.view e.new) result }
{
    PLACES.differ(e, LIVE, BLOCKED)?;
    let found = if e.empty(PLACES.differing)? {
        None
    } else {
        Some(PLACES.hunt(e)?)
    };
    e.clear(PLACES.differing)?;
    Ok(found)
}

// The same; every register is as it was afterwards, after a refusal too.
pub fn least<E: DecidingEngine>(e: &mut E) -> Result<Option<Assignment>, EngineFault>
    ensures { Finds E.Engine.rooms (E.Engine.view e.old).vars (E.Engine.view e.old) (E.Engine.view e.new) result }
{
    let found = seek(e);
    or_swept(e, found)
}
