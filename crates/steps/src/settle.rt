ghost use Rattle.std.specs.Prelude.{◌≡◌, Ok};
ghost use Rattle.engine.specs.Rows.{Ran};
ghost use Rattle.steps.specs.Steps.{stored_steps, sweep_steps};
ghost use Rattle.steps.specs.Works.{Swept};

use crate::scratch::{BLOCKED, MATCHED, SCRATCH};
use engine::calls::Engine;
use engine::fault::EngineFault;
use kind::rule::Action;

// The draft's registers that a rule of this action changes are written, and the scratch registers cleared.
pub(crate) fn store<E: Engine>(e: &mut E, action: Action) -> Result<(), EngineFault>
    ensures row { Ran E.Engine.rooms (stored_steps action) (E.Engine.view e.old) (E.Engine.view e.new) result }
    ensures done { result ≡ Ok tt }
{
    e.copy(MATCHED, SCRATCH.matched)?;
    if action.is_block() {
        e.copy(BLOCKED, SCRATCH.blocked)?;
        e.clear(SCRATCH.matched)?;
        e.clear(SCRATCH.blocked)
    } else {
        e.clear(SCRATCH.matched)
    }
}

// The scratch registers become false.
pub fn sweep<E: Engine>(e: &mut E) -> Result<(), EngineFault>
    ensures row { Ran E.Engine.rooms sweep_steps (E.Engine.view e.old) (E.Engine.view e.new) result }
    ensures done { result ≡ Ok tt }
{
    e.clear(SCRATCH.rule)?;
    e.clear(SCRATCH.literal)?;
    e.clear(SCRATCH.negated)?;
    e.clear(SCRATCH.left)?;
    e.clear(SCRATCH.right)?;
    e.clear(SCRATCH.both)?;
    e.clear(SCRATCH.fresh)?;
    e.clear(SCRATCH.matched)?;
    e.clear(SCRATCH.blocked)
}

// What was done is passed on; after a refusal the scratch registers become false.
pub fn or_swept<E: Engine, T>(e: &mut E, done: Result<T, EngineFault>) -> Result<T, EngineFault>
    ensures same { result ≡ done }
    ensures swept { Swept E.Engine.rooms (E.Engine.view e.old) (E.Engine.view e.new) result }
{
    // kept: with `is_err` the early return of the sweep would have to drop a T
    match done {
        Ok(x) => Ok(x),
        Err(fault) => {
            sweep(e)?;
            Err(fault)
        }
    }
}
