// What no call says by itself.
ghost use Rattle.std.specs.Prelude.{◌≡◌, ◌≢◌, ℕ, ℤ, List, Result, Err};
ghost use Rattle.c_meaning.specs.declared.Event.{Event};
ghost use Rattle.schedule_texts.specs.Schedules as schedules;
ghost use Rattle.schedule_texts.specs.Inputs as inputs;
ghost use Rattle.schedule_texts.specs.declared.input.InputError.{InputError};
ghost use Rattle.schedule_texts.specs.declared.input.InputError.TheVariants as input_error;
ghost use Rattle.schedule_texts.specs.declared.schedule.ScheduleError.{ScheduleError};
ghost use Rattle.schedule_texts.specs.declared.schedule.ScheduleError.TheVariants as schedule_error;

/// Each text is a schedule or wrong in some way, and so in one alone: of two answers that [`crate::read_schedule`] may give, want of memory apart,
/// each is the other.
pub fn one_schedule()
    ensures some { (text : List ℕ) → schedules.HasAnswer text }
    ensures one { (text : List ℕ) (r q : Result (List Event) ScheduleError) → schedules.Answers text r → schedules.Answers text q
        → r ≢ Err schedule_error.Memory → q ≢ Err schedule_error.Memory → r ≡ q }
{}

/// The same of inputs.
pub fn one_input()
    ensures some { (text : List ℕ) → inputs.HasAnswer text }
    ensures one { (text : List ℕ) (r q : Result (List ℤ) InputError) → inputs.Answers text r → inputs.Answers text q
        → r ≢ Err input_error.Memory → q ≢ Err input_error.Memory → r ≡ q }
{}
