ghost use Rattle.std.specs.Prelude.{◌≡◌, Some};
ghost use Rattle.kind.specs.Actions.{action_of, action_word};
ghost use Rattle.kind.specs.Rules.{blocks, Matching};

use engine::assignment::Assignment;
use std::fmt;
use text::fault::LineFault;
use text::fields::Field;

// What a rule does with the frames that it decides.
#[derive(Clone, Copy, Debug, Default, PartialEq, Eq)]
pub enum Action {
    Block,
    #[default]
    Pass,
}

// A rule: it matches the frames that agree with its value at every bit that counts.
#[derive(Clone, Copy, Debug, Default, PartialEq, Eq)]
pub struct Rule {
    pub action: Action,
    pub value: Assignment,
    // the bits that count
    pub care: Assignment,
}

impl Action {
    // kept: a field is a text to be read and no other form of the value; `try_from` would not say so
    // The action that a field says.
    pub fn read(field: Field<'_>) -> Result<Action, LineFault>
        ensures { result ≡ action_of field.entry.text.now field.entry.place }
    {
        match field.text {
            b"block" => Ok(Action::Block),
            b"pass" => Ok(Action::Pass),
            _ => Err(LineFault::Action(field.place)),
        }
    }

    // The word that says the action.
    pub fn word(self) -> &'static str
        ensures { result.now ≡ action_word self }
    {
        match self {
            Action::Block => "block",
            Action::Pass => "pass",
        }
    }

    pub fn is_block(self) -> bool
        ensures { result ≡ blocks self }
    {
        self == Action::Block
    }
}

impl fmt::Display for Action {
    ghost output = { λ a. Some (action_word a) };

    fn fmt<W: fmt::Write>(&self, f: &mut fmt::Formatter<W>) -> fmt::Result {
        f.write_str(self.word())
    }
}

// A rule matches a frame exactly when they agree at every bit that counts.
#[tactic(auto, using(crate::proofs::Matched::matching))]
pub fn matching_stands()
    ensures { Matching }
{}
