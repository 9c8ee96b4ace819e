ghost use Rattle.std.specs.Prelude.{◌≡◌, IfOk};
ghost use Rattle.filter.specs.Books.{no_rules};
ghost use Rattle.run.specs.Calls.{all_asked};
ghost use Rattle.run.specs.Law.{Holds, Together, JudgedOnce};
ghost use Rattle.run.specs.Worked.{Worked, fresh};

use crate::call::Call;
use crate::perform::perform;
use engine::calls::DecidingEngine;
use filter::answer::Answer;
use filter::filter::Filter;
use kind::kind::Kind;
use std::alloc::{AllocError, Global};

// The answers of a new filter to the calls, in their order.
pub fn run<K: Kind + Drop, E: DecidingEngine + Drop>(
    heap: Global,
    kind: K,
    engine: E,
    calls: &[Call],
) -> Result<Vec<Answer>, AllocError>
    ensures law { IfOk result (λ v. Holds K.Kind.reading (E.Engine.view engine).vars no_rules (all_asked calls.now) v.items) }
    ensures rooms { IfOk result (λ v. Worked E.Engine.rooms K.Kind.reading (fresh E.Engine.rooms (E.Engine.view engine)) no_rules calls.now v.items) }
{
    let mut filter = Filter::new(kind, engine);
    let mut answers = Vec::new(heap);
    for call in calls {
        answers.push(perform(&mut filter, call))?;
    }
    Ok(answers)
}

// The answers of two new filters for one kind, each on an engine of its own, to two lists of calls. Where both ask the
// same, whatever the places of their compares hold, the answers are the same up to the first that tells of no room.
pub fn run_pair<'a, K: Kind + Copy, E: DecidingEngine + Drop, F: DecidingEngine + Drop>(
    heap: Global,
    kind: K,
    one: E,
    two: F,
    calls: &[Call<'a>],
    others: &[Call<'a>],
) -> Result<(Vec<Answer>, Vec<Answer>), AllocError>
    ensures one { IfOk result (λ v. Holds K.Kind.reading (E.Engine.view one).vars no_rules (all_asked calls.now) v.0.items) }
    ensures two { IfOk result (λ v. Holds K.Kind.reading (F.Engine.view two).vars no_rules (all_asked others.now) v.1.items) }
    ensures together { (E.Engine.view one).vars ≡ K.Kind.reading.bits → (F.Engine.view two).vars ≡ K.Kind.reading.bits → all_asked calls.now ≡ all_asked others.now → IfOk result (λ v. Together v.0.items v.1.items) }
{
    let first = run(heap, kind, one, calls)?;
    let second = run(heap, kind, two, others)?;
    Ok((first, second))
}

// The same for one list of calls.
pub fn run_both<K: Kind + Copy, E: DecidingEngine + Drop, F: DecidingEngine + Drop>(
    heap: Global,
    kind: K,
    one: E,
    two: F,
    calls: &[Call],
) -> Result<(Vec<Answer>, Vec<Answer>), AllocError>
    ensures one { IfOk result (λ v. Holds K.Kind.reading (E.Engine.view one).vars no_rules (all_asked calls.now) v.0.items) }
    ensures two { IfOk result (λ v. Holds K.Kind.reading (F.Engine.view two).vars no_rules (all_asked calls.now) v.1.items) }
    ensures together { (E.Engine.view one).vars ≡ K.Kind.reading.bits → (F.Engine.view two).vars ≡ K.Kind.reading.bits → IfOk result (λ v. Together v.0.items v.1.items) }
{
    run_pair(heap, kind, one, two, calls, calls)
}

// Every frame is judged in just one way.
#[tactic(auto, using(crate::proofs::Judging::judged_once))]
pub fn judging_stands()
    ensures { JudgedOnce }
{}
