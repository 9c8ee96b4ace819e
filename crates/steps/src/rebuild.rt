ghost use Rattle.std.specs.Prelude.{◌≡◌};
ghost use Rattle.engine.specs.Rows.{Ran};
ghost use Rattle.steps.specs.Steps.{rebuild_steps};
ghost use Rattle.steps.specs.Works.{Rebuilds};

use crate::scratch::SCRATCH;
use crate::settle::{or_swept, store};
use engine::calls::Engine;
use engine::fault::EngineFault;
use kind::rule::{Action, Rule};

// The frames that the rules match and block are put together in the scratch registers.
fn gather<E: Engine>(e: &mut E, rules: &[Rule], n: u8) -> Result<(), EngineFault>
    ensures { Ran E.Engine.rooms (rebuild_steps rules.now n) (E.Engine.view e.old) (E.Engine.view e.new) result }
{
    for rule in rules {
        SCRATCH.find(e, rule, n, SCRATCH.matched)?;
        SCRATCH.keep(e, rule, SCRATCH.matched, SCRATCH.blocked)?;
    }
    Ok(())
}

// The draft's registers become those of these rules. A refusal leaves every register as it was.
pub fn rebuild<E: Engine>(e: &mut E, rules: &[Rule], n: u8) -> Result<(), EngineFault>
    ensures { Rebuilds E.Engine.rooms rules.now n (E.Engine.view e.old) (E.Engine.view e.new) result }
{
    let done = gather(e, rules, n);
    or_swept(e, done)?;
    store(e, Action::Block)
}
