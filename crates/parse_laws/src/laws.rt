//! Laws of the small language.

ghost use Rattle.std.specs.Prelude.{◌≡◌, ℕ, List};
ghost use Rattle.parse_laws.specs.declared.fault.Fault.{Fault as AnyFault};
ghost use Rattle.parse_laws.specs.declared.token.Token.{Token as AnyToken};
ghost use Rattle.parse_laws.specs.declared.tree.Sum.{Sum as AnySum};
ghost use Rattle.parse_laws.specs.declared.tree.Tall.{Tall as AnyTall};
ghost use Rattle.parse_laws.specs.Exact.{FailsAt, IsExact, whole};
ghost use Rattle.parse_laws.specs.Sums.{Spells, height};
ghost use Rattle.parse_laws.specs.SumParser.{list};

/// In any room, the parser answers a list that is spelled within the room, or the first failing token.
pub fn answers_are_exact()
    ensures { (r : ℕ) (ts : List AnyToken) → IsExact Spells height r ts (whole (list r) ts) }
{}

/// Tokens spell at most one list.
pub fn one_reading()
    ensures { (ts : List AnyToken) (a b : AnyTall (List AnySum)) → Spells ts a → Spells ts b → a ≡ b }
{}

/// A text fails at one token at most, and for one reason.
pub fn one_failure()
    ensures { (r : ℕ) (ts : List AnyToken) (f g : AnyFault) (rest after : List AnyToken)
        → FailsAt Spells height r ts f rest → FailsAt Spells height r ts g after → (f ≡ g) × (rest ≡ after) }
{}
