// Why threads of such programs never block in a circle.
ghost use Rattle.std.specs.Prelude.{◌≡◌, None, true};
ghost use Rattle.c_tree.specs.Lined as lined;
ghost use Rattle.c_tree.specs.Lined.{bare_program};
ghost use Rattle.c_meaning.specs.Stuck.{NeverStuck};
ghost use Rattle.first_form.specs.FirstForm.{is_first_form, first_nested};

/// No state that a program of the first form reaches, on any input and by any schedule, has a
/// stuck set, where no lock of it stands below another that isn't unlocked since.
pub fn one_lock_at_a_time()
    ensures { (p : lined.Program) → is_first_form (bare_program p) ≡ true → first_nested p ≡ None → NeverStuck (bare_program p) }
{}
