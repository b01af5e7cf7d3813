// What holds of answers, whichever way they are found.
ghost use Rattle.std.specs.Prelude.{◌≡◌, ℕ, List, true};
ghost use Rattle.command_words.specs.Tasks as tasks;
ghost use Rattle.answers.specs.Answered.{Answered};
ghost use Rattle.answers.specs.Causes.{Decides, HasAnswer, HasOneAnswer};
ghost use Rattle.answers.specs.Commands.{causes_of};
ghost use Rattle.answers.specs.Statuses.{is_written};

use c_rules::{every_program_is_judged, one_first_break, one_first_passed};
use schedule_texts::{one_input, one_schedule};
use trace_laws::one_trace;

/// A task has an answer of the contents of its files, and one alone, and what it accepts is done or answered no.
pub fn one_answer()
    ensures some { (task : tasks.Task) (contents : List (List ℕ)) → HasAnswer (causes_of task contents) }
    ensures one { (task : tasks.Task) (contents : List (List ℕ)) → HasOneAnswer (causes_of task contents) }
    ensures written { (task : tasks.Task) (contents : List (List ℕ)) → (causes_of task contents).accepted
        → (answer : Answered) → Decides (causes_of task contents) answer → is_written answer.status ≡ true }
{
    every_program_is_judged();
    one_first_break();
    one_first_passed();
    one_schedule();
    one_input();
    one_trace();
}
