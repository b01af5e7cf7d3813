// What holds of the rules of every program.

ghost use Rattle.std.specs.Prelude.{◌≡◌, ◌⊎◌, ℕ};
ghost use Rattle.c_tree.specs.declared.program.Mode.{Mode as AnyMode};
ghost use Rattle.c_tree.specs.Lined.{Program as AnyProgram};
ghost use Rattle.c_rules.specs.declared.rule.Rule.{Rule as AnyRule};
ghost use Rattle.c_rules.specs.declared.rule.Count.{Count as AnyCount};
ghost use Rattle.c_rules.specs.Counts.{FirstPassed};
ghost use Rattle.c_rules.specs.Formed.{Breaks, FirstBreak, Formed, Judged, KeepsRules};

/// A rule is broken at a line or it isn't.
pub fn each_rule_is_decidable()
    ensures { (rule : AnyRule) (p : AnyProgram) (mode : AnyMode) (line : ℕ) → Breaks rule p mode line ⊎ (Breaks rule p mode line → ⊥) }
{}

/// Every program is well formed, or breaks a rule first, or has a count that is the first to pass
/// its number.
pub fn every_program_is_judged()
    ensures { (p : AnyProgram) (mode : AnyMode) → Judged p mode }
{}

/// One rule at one line is broken first.
pub fn one_first_break()
    ensures { (p : AnyProgram) (mode : AnyMode) (r s : AnyRule) (a b : ℕ)
        → FirstBreak p mode r a → FirstBreak p mode s b → (r ≡ s) × (a ≡ b) }
{}

/// One count is the first that passes its number.
pub fn one_first_passed()
    ensures { (p : AnyProgram) (a b : AnyCount) → FirstPassed p a → FirstPassed p b → a ≡ b }
{}

/// A well-formed program breaks no rule and passes no number, and no rule is broken where a count
/// is judged.
pub fn judgements_exclude_each_other()
    ensures no_break { (p : AnyProgram) (mode : AnyMode) (rule : AnyRule) (line : ℕ) → Formed p mode → FirstBreak p mode rule line → ⊥ }
    ensures no_count { (p : AnyProgram) (mode : AnyMode) (what : AnyCount) → Formed p mode → FirstPassed p what → ⊥ }
    ensures keeps_or_breaks { (p : AnyProgram) (mode : AnyMode) (rule : AnyRule) (line : ℕ) → KeepsRules p mode → FirstBreak p mode rule line → ⊥ }
{}
