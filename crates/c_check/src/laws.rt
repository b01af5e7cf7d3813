// A law of the numbers in a table.

ghost use Rattle.std.specs.Prelude.{◌≡◌, ℕ, List, Option, pos, option_map};
ghost use Rattle.c_tree.specs.Bare.{Program as AnyProgram};
ghost use Rattle.c_tree.specs.Numbering.{mutex_of};
ghost use Rattle.c_check.specs.Tables.{numbers_of, resource_in};

/// The number that a table has for a mutex is that of the program.
pub fn resources_are_of_the_program()
    ensures { (p : AnyProgram) (name : List ℕ) (index : Option ℕ) → resource_in (numbers_of p).mutexes name index ≡ mutex_of p name (option_map (λ k. pos k) index) }
{}
