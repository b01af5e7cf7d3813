//! What follows from the clauses of [`gadara`](crate::gadara): functions that do nothing, whose contracts are laws.
ghost use Rattle.std.specs.Prelude.{◌≡◌, ◌≢◌, ◌⊎◌, ℕ, List, false, true, None, Some};
ghost use Rattle.gd_host.specs.Outside.{Files, Seen, Rose};
ghost use Rattle.command_words.specs.declared.command.Command.TheVariants.{Instrument};
ghost use Rattle.command_words.specs.Tasks.{Task};
ghost use Rattle.command_words.specs.Words.{task_of};
ghost use Rattle.answers.specs.declared.status.Status.{Status};
ghost use Rattle.answers.specs.declared.status.Status.TheVariants.{HostFault, Usage, Refused, Limit, Memory};
ghost use Rattle.answers.specs.Statuses.{is_written};
ghost use Rattle.answers.specs.Answered.{Answered, usage_answer, unread_answer, too_long_answer};
ghost use Rattle.answers.specs.Causes.{Decides};
ghost use Rattle.answers.specs.Commands.{causes_of};
ghost use Rattle.top_call.specs.Answers.{Fetched, limits_of, files_named, read_for};
ghost use Rattle.top_call.specs.Fetching.{AsksFirst, AsksInOrder};
ghost use Rattle.top_call.specs.Ending.{Ends, NoFault, IsAsAnswered};
ghost use Rattle.top_call.specs.Clauses.{Exact, Explains, EndsBy, AsksToInstrument, IsRefusedFile, IsLimitedFile, IsTooLong};

/// A call that ends with another status than Done or No writes nothing to the output; after a fault
/// of the host it may have written a front of the text, where a call of emit failed. A call that
/// ends with Done or No complains of nothing.
pub fn the_status_says_where_something_is_told()
    ensures quiet { (words : List (List ℕ)) (old new : Seen) (status : Status) →
        Ends words old new status → is_written status ≡ false → status ≢ HostFault → new.out ≡ old.out }
    ensures unwritten { (words : List (List ℕ)) (old new : Seen) → Ends words old new HostFault →
        (new.out ≡ old.out) ⊎ Rose old.write_faults new.write_faults }
    ensures silent { (words : List (List ℕ)) (old new : Seen) (status : Status) →
        Ends words old new status → is_written status ≡ true → new.err ≡ old.err }
{}

/// Words of no known shape, and no others, end with Usage, and no file is asked for.
pub fn usage_is_for_words_of_no_known_shape()
    ensures usage { (words : List (List ℕ)) (old new : Seen) → Explains words old new Usage →
        task_of words ≡ None }
    ensures shapes { (words : List (List ℕ)) (files : Files) (old new : Seen) (status : Status) →
        Exact words files old new status → task_of words ≡ None → EndsBy usage_answer old new status }
    ensures unasked { (words : List (List ℕ)) (old new : Seen) → task_of words ≡ None →
        AsksInOrder (limits_of words) (files_named words) old new → AsksFirst 0 (files_named words) old new }
{}

/// How a call ends whose files are told: as the first file that is absent or too long says, or else
/// as the command decides of the files' contents.
pub fn files_decide_how_a_call_ends()
    ensures absent { (words : List (List ℕ)) (files : Files) (old new : Seen) (status : Status) →
        Exact words files old new status → (task : Task) (name : List ℕ) → task_of words ≡ Some task →
        read_for files task ≡ Fetched.absent name → EndsBy (unread_answer name) old new status }
    ensures too_long { (words : List (List ℕ)) (files : Files) (old new : Seen) (status : Status) →
        Exact words files old new status → (task : Task) (name : List ℕ) (limit : ℕ) →
        task_of words ≡ Some task → read_for files task ≡ Fetched.long name limit →
        EndsBy (too_long_answer name limit) old new status }
    ensures decided { (words : List (List ℕ)) (files : Files) (old new : Seen) (status : Status) →
        Exact words files old new status → (task : Task) (contents : List (List ℕ)) →
        task_of words ≡ Some task → read_for files task ≡ Fetched.whole contents →
        (answer : Answered) → Decides (causes_of task contents) answer → EndsBy answer old new status }
{}

/// Where no call of the host fails, a call has the status of its answer and tells what the answer
/// tells, unless memory is wanting.
pub fn answers_are_told()
    ensures { (answer : Answered) (old new : Seen) (status : Status) → EndsBy answer old new status →
        NoFault old new → IsAsAnswered answer old new status ⊎ (status ≡ Memory) }
{}

/// Why `instrument` refuses a file, and which limit a file passes: the line that is complained is
/// that of a cause of its bytes.
pub fn instrument_says_why()
    ensures refused { (words : List (List ℕ)) (old new : Seen) (file : List ℕ) →
        Explains words old new Refused → AsksToInstrument words file →
        IsRefusedFile words file old new }
    ensures limited { (words : List (List ℕ)) (old new : Seen) (file : List ℕ) →
        Explains words old new Limit → AsksToInstrument words file →
        IsTooLong words old new ⊎ IsLimitedFile words file old new }
{}
