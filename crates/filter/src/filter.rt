ghost use Rattle.std.specs.Prelude.{◌≡◌, Ok};
ghost use Rattle.engine.specs.Rows.{Ran};
ghost use Rattle.steps.specs.Steps.{wipe_steps};
ghost use Rattle.filter.specs.Books.{books, no_rules};
ghost use Rattle.filter.specs.Calls.{Asked, fitting_bits};
ghost use Rattle.filter.specs.Answers.{added_as, committed_as, judged_as, withdrawn_as, compared_as, Stays};
ghost use Rattle.filter.specs.Turns.{Sound, Turns};

use crate::answer::{Added, Comparison};
use crate::book::{BOOK_MAX, Book};
use crate::fault::FilterFault;
use engine::assignment::Assignment;
use engine::calls::DecidingEngine;
use kind::kind::Kind;
use kind::rule::Action;
use search::least::least;
use std::marker::Model;
use steps::add::admit;
use steps::rebuild::rebuild;
use steps::scratch::{BLOCKED, LIVE};
use steps::wipe::wipe;

// A live book, a draft, and an engine that holds the frames that they block and match.
#[derive(Drop)]
pub struct Filter<K: Kind, E: DecidingEngine> {
    kind: K,
    engine: E,
    live: Book,
    draft: Book,
}

// The registers mean what the books say.
impl<K: Kind, E: DecidingEngine> Model for Filter<K, E> {
    ghost use Rattle.filter.specs.Books.{Held};

    ghost Value = { Held E };

    ghost use Rattle.filter.specs.Books.{books};
    ghost use Rattle.filter.specs.Turns.{Sound};

    ghost view = { λ f. record { engine = f.engine; books = books f.live f.draft } };

    ghost invariant = { λ f. Sound K.Kind.reading (E.Engine.view f.engine) (books f.live f.draft) };
}

impl<K: Kind, E: DecidingEngine> Filter<K, E> {
    // A filter with empty books; every register becomes false.
    pub fn new(kind: K, mut engine: E) -> Filter<K, E>
        ensures row { Ran {A = Unit {0}} E.Engine.rooms wipe_steps (E.Engine.view engine) (E.Engine.view result.engine) (Ok tt) }
        ensures vars { (E.Engine.view result.engine).vars ≡ (E.Engine.view engine).vars }
        ensures books { result.books ≡ no_rules }
        ensures sound { Sound K.Kind.reading (E.Engine.view result.engine) no_rules }
    {
        wipe(&mut engine);
        Filter {
            kind,
            engine,
            live: Book::new(),
            draft: Book::new(),
        }
    }

    // The number of bytes of a frame.
    pub fn frame_size(&self) -> u8
        ensures { result ≡ K.Kind.reading.size }
    {
        self.kind.size()
    }

    // The number of bits of a frame, which has to be the engine's number of variables.
    fn bits(&self) -> Result<u8, FilterFault>
        ensures { result ≡ fitting_bits K.Kind.reading (E.Engine.view self.now.engine).vars }
    {
        let bits = self.kind.bits();
        if bits != self.engine.variables() {
            return Err(FilterFault::Mismatch);
        }
        Ok(bits)
    }

    // Puts the rule that the line says last in the draft; tells its number, and whether it decides no frame there.
    pub fn add(&mut self, line: &[u8]) -> Result<Added, FilterFault>
        ensures { Turns E.Engine.rooms E.Engine.view K.Kind.reading (Asked.adding line.now) self.old self.new (added_as result) }
    {
        let n = self.bits()?;
        let rule = self.kind.read(line)?;
        let count = self.draft.len();
        if count >= BOOK_MAX {
            return Err(FilterFault::Full);
        }
        let idle = admit(&mut self.engine, &rule, n)?;
        self.draft.push(rule);
        Ok(Added {
            number: count + 1,
            idle,
        })
    }

    // Makes the draft the live book.
    pub fn commit(&mut self) -> Result<(), FilterFault>
        ensures { Turns E.Engine.rooms E.Engine.view K.Kind.reading Asked.committing self.old self.new (committed_as result) }
    {
        self.bits()?;
        self.engine.copy(LIVE, BLOCKED)?;
        self.live = self.draft;
        Ok(())
    }

    // What the live book does with the frame.
    pub fn judge(&mut self, frame: &[u8]) -> Result<Action, FilterFault>
        ensures { Turns E.Engine.rooms E.Engine.view K.Kind.reading (Asked.judging frame.now) self.old self.new (judged_as result) }
    {
        self.bits()?;
        let bits = self.kind.turn(frame)?;
        let blocked = self.engine.evaluate(LIVE, &bits)?;
        Ok(if blocked { Action::Block } else { Action::Pass })
    }

    // Takes the rule of this number out of the draft; rules are numbered from 1, and the gap is closed.
    pub fn withdraw(&mut self, number: usize) -> Result<(), FilterFault>
        ensures { Turns E.Engine.rooms E.Engine.view K.Kind.reading (Asked.withdrawing number) self.old self.new (withdrawn_as result) }
    {
        let n = self.bits()?;
        if number < 1 || number > self.draft.len() {
            return Err(FilterFault::Missing);
        }
        let mut rest = self.draft;
        rest.remove(number - 1);
        rebuild(&mut self.engine, rest.rules(), n)?;
        self.draft = rest;
        Ok(())
    }

    // Whether the two books judge every frame alike; where not, the least frame that they judge differently goes into
    // the first bytes of the place.
    pub fn compare(&mut self, place: &mut Assignment) -> Result<Comparison, FilterFault>
        ensures turn { Turns E.Engine.rooms E.Engine.view K.Kind.reading (Asked.comparing place.old) self.old self.new (compared_as result place.new) }
        ensures stays { Stays result place.old place.new }
    {
        self.bits()?;
        let Some(bits) = least(&mut self.engine)? else {
            return Ok(Comparison::Alike);
        };
        self.kind.back(&bits, place);
        Ok(Comparison::Differs)
    }
}
