// What keeps a program well formed.

ghost use Rattle.std.specs.Prelude.{◌≡◌, ℕ, List, Contains, true, false};
ghost use Rattle.c_tree.specs.declared.program.Mode.{Mode as AnyMode};
ghost use Rattle.c_tree.specs.declared.program.Mode.TheVariants as the_mode;
ghost use Rattle.c_tree.specs.Lined.{Function as AnyFunction, Program as AnyProgram, bare_program};
ghost use Rattle.c_rules.specs.Sites.{is_main};
ghost use Rattle.c_rules.specs.Uses.{is_start};
ghost use Rattle.c_rules.specs.Formed.{Formed};
ghost use Rattle.kept_rules.specs.Edit.{Way};
ghost use Rattle.kept_rules.specs.Programs.{IsEditOf, KeepsOwn};
ghost use Rattle.kept_rules.specs.Uses.{IsPutInto, IsCopyOf};

/// A program with functions copied and renamed, with takes and gives of monitors put in and on
/// other lines is well formed, where what is new in it keeps the rules.
pub fn edits_keep_the_rules()
    ensures { (r : Way) (place : ℕ → ℕ) (n : AnyMode) (q p : AnyProgram) (mode : AnyMode)
        → IsEditOf r place q p → KeepsOwn n q → Formed p mode → Formed q n }
{}

/// A program with takes and gives of monitors put in, also among the takes of its waits, is well
/// formed, where each of its monitors has a capacity.
pub fn puts_keep_the_rules()
    ensures { (q p : AnyProgram) (mode : AnyMode) → IsPutInto q p → Formed p mode → Formed q the_mode.Any }
{}

/// A program whose functions are copied, and called by the names of copies, is well formed.
pub fn copies_keep_the_rules()
    ensures { (name : List ℕ → List ℕ) (place : ℕ → ℕ) (q p : AnyProgram) (mode : AnyMode)
        → IsCopyOf name place q p → Formed p mode → Formed q the_mode.Any }
{}

/// A well-formed program, in which no thread begins with main, is a copy of itself.
pub fn programs_are_copies_of_themselves()
    ensures { (p : AnyProgram) (mode : AnyMode) → Formed p mode
        → ((f : AnyFunction) → Contains p.functions f → is_main f ≡ true → is_start f.kind ≡ false) → IsCopyOf (λ n. n) (λ k. k) p p }
{}

/// A program that is well formed is so on other lines, in each mode.
pub fn lines_do_not_matter()
    ensures { (q p : AnyProgram) (mode : AnyMode) → bare_program q ≡ bare_program p → Formed p mode → Formed q mode }
{}

/// A well-formed program of a user is one that may have copies and monitors.
pub fn programs_of_users_are_programs()
    ensures { (p : AnyProgram) (mode : AnyMode) → Formed p mode → Formed p the_mode.Any }
{}
