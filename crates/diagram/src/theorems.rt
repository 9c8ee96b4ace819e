//! Theorems about diagrams. Each function has one as its contract, and does nothing.
ghost use Rattle.std.specs.Prelude.{ℕ};
ghost use Rattle.diagram.specs.RuleLaws.{Rewriting, Negating};
ghost use Rattle.diagram.specs.MeetLaws.{Conjunction};
ghost use Rattle.diagram.specs.FixLaws.{Fixing};
ghost use Rattle.diagram.specs.Shapes.{Order, Reduction};
ghost use Rattle.diagram.specs.Meanings.{Meaning};
ghost use Rattle.diagram.specs.Examples.{Examples};

// Reduction follows the ten rewrite rules.
pub fn rules_stand()
    ensures { Rewriting }
{}

// Negation reduces with the other sign.
pub fn negation_stands()
    ensures { Negating }
{}

// Conjunction follows its table of cases.
pub fn conjunction_stands()
    ensures { (n : ℕ) → Conjunction n }
{}

// Literals, fixing, forall and empty follow their rules.
pub fn fixing_stands()
    ensures { (n : ℕ) → Fixing n }
{}

// Ordered diagrams give ordered diagrams, with labels from 1 to n.
pub fn order_stands()
    ensures { (n : ℕ) → Order n }
{}

// Reduced diagrams give and form reduced diagrams.
pub fn reduction_stands()
    ensures { (n : ℕ) → Reduction n }
{}

// The operations mean what their names say, and empty decides.
pub fn values_stand()
    ensures { (n : ℕ) → Meaning n }
{}

// Worked examples with two variables.
pub fn examples_stand()
    ensures { Examples }
{}
