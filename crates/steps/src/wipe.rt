ghost use Rattle.std.specs.Prelude.{◌≡◌, false, Ok};
ghost use Rattle.engine.specs.Rows.{Ran};
ghost use Rattle.steps.specs.Steps.{wipe_steps};

use engine::calls::Engine;

// The number of registers.
pub const REGISTERS: u8 = 16;

// Every register becomes false.
pub fn wipe<E: Engine>(e: &mut E)
    ensures row { Ran {A = Unit {0}} E.Engine.rooms wipe_steps (E.Engine.view e.old) (E.Engine.view e.new) (Ok tt) }
    ensures vars { (E.Engine.view e.new).vars ≡ (E.Engine.view e.old).vars }
    ensures regs { (E.Engine.view e.new).regs ≡ (λ _ _. false) }
{
    for d in 0..REGISTERS {
        let _ = e.clear(d);
    }
}
