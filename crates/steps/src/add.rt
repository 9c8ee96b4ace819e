ghost use Rattle.steps.specs.Works.{Admits};

use crate::scratch::SCRATCH;
use crate::settle::{or_swept, store};
use engine::calls::DecidingEngine;
use engine::fault::EngineFault;
use kind::rule::Rule;

// The draft's registers take the rule in; whether it decides no frame. A refusal leaves every register as it was.
pub fn admit<E: DecidingEngine>(e: &mut E, rule: &Rule, n: u8) -> Result<bool, EngineFault>
    ensures { Admits E.Engine.rooms rule.now n (E.Engine.view e.old) (E.Engine.view e.new) result }
{
    let done = SCRATCH.work(e, rule, n);
    let idle = or_swept(e, done)?;
    store(e, rule.action)?;
    Ok(idle)
}
