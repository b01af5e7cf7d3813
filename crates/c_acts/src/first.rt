// The first of the rules that are broken.

ghost use Rattle.std.specs.Prelude.{◌≡◌};
ghost use Rattle.c_rules.specs.Formed as spec;
ghost use Rattle.c_acts.specs.First.{comes_first, noted, noted_all, break, break_if};

use c_rules::Rule;

/// A rule that is broken, and a line at which it is.
#[derive(Clone, Copy, Debug)]
pub struct Break {
    /// The rule.
    pub rule: Rule,
    /// The line.
    pub line: u32,
}

/// The place of a rule in their order.
fn rank(rule: Rule) -> u8
    ensures { result ≡ spec.rank rule }
{
    match rule {
        Rule::Reserved => 0,
        Rule::LongName => 1,
        Rule::Twice => 2,
        Rule::Unknown => 3,
        Rule::WrongKind => 4,
        Rule::WrongCount => 5,
        Rule::Recursion => 6,
        Rule::NoMain => 7,
        Rule::CreateNotFixed => 8,
        Rule::JoinNotFixed => 9,
        Rule::ArgNotConstant => 10,
        Rule::InitLate => 11,
        Rule::IndexRange => 12,
    }
}

/// Whether a break is on an earlier line than another, or at its line and no later in the order of
/// the rules.
fn comes_first(a: Break, b: Break) -> bool
    ensures { result ≡ comes_first a b }
{
    a.line < b.line || a.line == b.line && rank(a.rule) <= rank(b.rule)
}

/// Keeps the first of what was found so far and a rule that is broken at a line.
pub fn note(first: &mut Option<Break>, rule: Rule, line: u32)
    ensures { first.new ≡ noted first.old (break rule line) }
{
    let found = Break { rule, line };
    match first {
        Some(before) => {
            if !comes_first(*before, found) {
                *first = Some(found);
            }
        }
        None => *first = Some(found),
    }
}

/// The same, where the rule is broken.
pub fn note_if(first: &mut Option<Break>, broken: bool, rule: Rule, line: u32)
    ensures { first.new ≡ noted_all first.old (break_if broken rule line) }
{
    if broken {
        note(first, rule, line);
    }
}
