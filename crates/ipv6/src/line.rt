ghost use Rattle.std.specs.Prelude.{◌≡◌, IfOk};
ghost use Rattle.std.specs.Option.{option_map};
ghost use Rattle.text.specs.Split.{part};
ghost use Rattle.text.specs.Lines.{parts};
ghost use Rattle.address.specs.Grammar.{Accepts};
ghost use Rattle.address.specs.Refusals.{Refuses};
ghost use Rattle.ipv6.specs.Rules.{rule_of};
ghost use Rattle.ipv6.specs.Lines.{port_at, port_of, parts_said, line_said, ipv6_rule};
ghost use Rattle.ipv6.specs.Grammar.{RuleText, Meant};
ghost use Rattle.ipv6.specs.Refusals.{RuleRefused};
ghost use Rattle.ipv6.specs.Examples.{Examples};

use crate::said::Said;
use address::prefix::Prefix;
use bits::{care, value};
use kind::fault::{PortFault, RuleFault};
use kind::rule::{Action, Rule};
use text::fields::Field;
use text::line::{Fields, read_fields};
use text::numerals::read_decimal;

// The port that a field says.
fn read_port(field: Field<'_>) -> Result<u16, PortFault>
    ensures { result ≡ port_at (part field.entry) }
{
    let number = read_decimal(field.text).and_then(|n| u16::try_from(n).ok());
    number.ok_or(PortFault::Number(field.place))
}

// The port of a line, if it has a field for one.
fn read_third(field: Option<Field<'_>>) -> Result<Option<u16>, PortFault>
    ensures { result ≡ port_of (option_map part field.entry) }
{
    field.map(read_port).transpose()
}

impl Said {
    // What the fields of a line say.
    fn read(fields: Fields<'_>) -> Result<Said, RuleFault>
        ensures { result ≡ parts_said (parts fields.entry) }
    {
        let action = Action::read(fields.action)?;
        let prefix = Prefix::read(fields.second)?;
        let port = read_third(fields.third)?;
        Ok(Said {
            action,
            prefix,
            port,
        })
    }

    // What a line says.
    fn read_line(line: &[u8]) -> Result<Said, RuleFault>
        ensures { result ≡ line_said line.now }
    {
        Said::read(read_fields(line)?)
    }

    // kept: a public method that callers name; `Rule::from(said)` would say no more
    // The rule that this says.
    pub fn rule(self) -> Rule
        ensures { result ≡ rule_of self }
    {
        Rule {
            action: self.action,
            value: value(self.prefix.address, self.port),
            care: care(self.prefix.length, self.port),
        }
    }
}

// The rule that a line says. A line is accepted exactly if it is a rule line of at most 80 bytes.
pub fn read_line(line: &[u8]) -> Result<Rule, RuleFault>
    ensures value { result ≡ ipv6_rule line.now }
    ensures grammar { Accepts result (RuleText line.now) }
    ensures refusal { Refuses result (RuleRefused line.now) }
    ensures meaning { IfOk result (Meant line.now) }
{
    let said = Said::read_line(line)?;
    Ok(said.rule())
}

// Rule lines that are read, and rule lines that are refused.
pub fn examples_stand()
    ensures { Examples }
{}
