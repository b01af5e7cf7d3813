// What the definitions give on small programs.
ghost use Rattle.std.specs.Prelude.{◌≡◌, pos, [], ◌∷◌, true, Some, None, map, option_map};
ghost use Rattle.c_tree.specs.Values.{constant};
ghost use Rattle.c_meaning.specs.State.{start};
ghost use Rattle.c_meaning.specs.Outcome.{NotEnabled, Undefined};
ghost use Rattle.c_meaning.specs.Step.{step};
ghost use Rattle.c_meaning.specs.Run.{run, deeds};
ghost use Rattle.c_meaning.specs.Stuck.{Blocked, IsStuck};
ghost use Rattle.c_meaning.specs.Laws.{blocked_for};
ghost use Rattle.c_meaning.specs.Samples.{taking_turns, crossing, trespassing, go, turns, after, both_threads};
ghost use Rattle.c_meaning.specs.declared.Did.TheVariants as did;
ghost use Rattle.c_meaning.specs.Waking.{choose, wake, turns_and, controlled, giving_for_another, signalling, broadcasting, until_the_act, trying, taking_again, woken_and};
ghost use Rattle.c_meaning.specs.Calling.{dividing, calling, ending_without, looping, reading_nothing};
ghost use Rattle.c_meaning.specs.ValueTable.{sums, quotients, tests};

/// Two threads that add to an int under one mutex: before its create statement a thread does
/// nothing; who comes second is blocked for the mutex, and goes on once it is unlocked; after main
/// has ended nothing is enabled, and both sums are in the int.
pub fn threads_take_turns()
    ensures not_begun { step taking_turns (start taking_turns []) (go 1) ≡ NotEnabled }
    ensures no_such_thread { step taking_turns (start taking_turns []) (go 3) ≡ NotEnabled }
    ensures owned { (after taking_turns (0 ∷ 0 ∷ 1 ∷ [])).owners ≡ Some 1 ∷ None ∷ [] }
    ensures blocked { Blocked taking_turns (after taking_turns (0 ∷ 0 ∷ 1 ∷ [])) 2 0 }
    ensures waits { step taking_turns (after taking_turns (0 ∷ 0 ∷ 1 ∷ [])) (go 2) ≡ NotEnabled }
    ensures joins_late { step taking_turns (after taking_turns (0 ∷ 0 ∷ 1 ∷ [])) (go 0) ≡ NotEnabled }
    ensures goes_on { (after taking_turns (0 ∷ 0 ∷ 1 ∷ 1 ∷ 1 ∷ 2 ∷ [])).owners ≡ Some 2 ∷ None ∷ [] }
    ensures sums { option_map (λ s. s.cells) (run taking_turns (turns (0 ∷ 0 ∷ 1 ∷ 1 ∷ 1 ∷ 1 ∷ 2 ∷ 2 ∷ 2 ∷ 2 ∷ 0 ∷ 0 ∷ 0 ∷ [])) (start taking_turns [])) ≡ Some (pos 3 ∷ []) }
    ensures ended { step taking_turns (after taking_turns (0 ∷ 0 ∷ 1 ∷ 1 ∷ 1 ∷ 1 ∷ 2 ∷ 2 ∷ 2 ∷ 2 ∷ 0 ∷ 0 ∷ 0 ∷ [])) (go 0) ≡ NotEnabled }
{}

/// A thread that unlocks a mutex which another owns does something undefined.
pub fn unlocking_for_another_is_undefined()
    ensures { step trespassing (after trespassing (0 ∷ 0 ∷ 1 ∷ [])) (go 2) ≡ Undefined }
{}

/// Two threads that lock two mutexes in opposite order can get stuck: so the definition of a stuck
/// set has cases.
pub fn crossing_locks_get_stuck()
    ensures done { deeds crossing (turns (0 ∷ 0 ∷ 1 ∷ 2 ∷ [])) (start crossing []) ≡ did.Create 1 ∷ did.Create 2 ∷ did.Lock 0 ∷ did.Lock 1 ∷ [] }
    ensures stuck { IsStuck crossing (after crossing (0 ∷ 0 ∷ 1 ∷ 2 ∷ [])) both_threads }
{}

/// A monitor of one token round the two locks: who comes second is blocked for it, whose number is
/// behind those of the mutexes, until the token is given back.
pub fn a_monitor_holds_back()
    ensures done { deeds controlled (turns (0 ∷ 0 ∷ 1 ∷ [])) (start controlled []) ≡ did.Create 1 ∷ did.Create 2 ∷ did.Take 0 ∷ [] }
    ensures waits { step controlled (after controlled (0 ∷ 0 ∷ 1 ∷ [])) (go 2) ≡ NotEnabled }
    ensures blocked { Blocked controlled (after controlled (0 ∷ 0 ∷ 1 ∷ [])) 2 2 }
    ensures goes_on { deeds controlled (turns (0 ∷ 0 ∷ 1 ∷ 1 ∷ 1 ∷ 1 ∷ 1 ∷ 1 ∷ 2 ∷ [])) (start controlled [])
        ≡ did.Create 1 ∷ did.Create 2 ∷ did.Take 0 ∷ did.Lock 0 ∷ did.Lock 1 ∷ did.Step ∷ did.Unlock 1 ∷ did.Give 0 ∷ did.Take 0 ∷ [] }
    ensures not_held { step giving_for_another (after giving_for_another (0 ∷ 0 ∷ 1 ∷ [])) (go 2) ≡ Undefined }
{}

/// A wait releases its mutex. A signal wakes the thread that the schedule chooses, and none only
/// where none waits; who is woken goes on once its mutex has no owner.
pub fn a_woken_thread_needs_its_mutex()
    ensures done { deeds signalling (turns_and until_the_act (choose 2 1 ∷ go 1 ∷ [])) (start signalling [])
        ≡ did.Create 1 ∷ did.Create 2 ∷ did.Lock 0 ∷ did.Step ∷ did.Wait 0 ∷ did.Lock 1 ∷ did.Lock 0 ∷ did.Step ∷ did.Signal (Some 1) ∷ [] }
    ensures waits { option_map (λ s. step signalling s (go 1)) (run signalling (turns_and until_the_act (choose 2 1 ∷ [])) (start signalling [])) ≡ Some NotEnabled }
    ensures wakes_one { step signalling (after signalling until_the_act) (go 2) ≡ NotEnabled }
    ensures none_there { step signalling (after signalling until_the_act) (choose 2 0) ≡ NotEnabled }
    ensures no_signal { step signalling (after signalling until_the_act) (choose 0 1) ≡ NotEnabled }
    ensures goes_on { deeds signalling (choose 2 1 ∷ go 2 ∷ go 1 ∷ go 1 ∷ go 1 ∷ []) (after signalling until_the_act)
        ≡ did.Signal (Some 1) ∷ did.Unlock 0 ∷ did.Retake 0 ∷ did.Step ∷ [] }
    ensures wakes_none { deeds signalling (wake 1 ∷ wake 1 ∷ []) (after signalling until_the_act) ≡ did.Wake ∷ [] }
    ensures none { deeds signalling (wake 1 ∷ go 2 ∷ []) (after signalling until_the_act) ≡ did.Wake ∷ did.Signal None ∷ [] }
    ensures all { deeds broadcasting (go 2 ∷ go 2 ∷ go 1 ∷ []) (after broadcasting until_the_act) ≡ did.Broadcast ∷ did.Unlock 0 ∷ did.Retake 0 ∷ [] }
{}

/// A trylock of a mutex that has an owner goes on with the busy arm, and is blocked for nothing.
pub fn a_trylock_never_waits()
    ensures owned { (after trying (0 ∷ 0 ∷ 1 ∷ [])).owners ≡ Some 1 ∷ None ∷ [] }
    ensures done { deeds trying (turns (0 ∷ 0 ∷ 1 ∷ 2 ∷ 2 ∷ 1 ∷ 1 ∷ [])) (start trying [])
        ≡ did.Create 1 ∷ did.Create 2 ∷ did.Lock 0 ∷ did.Step ∷ did.Step ∷ did.Step ∷ did.Unlock 0 ∷ [] }
    ensures sums { (after trying (0 ∷ 0 ∷ 1 ∷ 2 ∷ 2 ∷ 1 ∷ 1 ∷ [])).cells ≡ pos 6 ∷ [] }
    ensures never { blocked_for trying (after trying (0 ∷ 0 ∷ 1 ∷ [])) 2 ≡ None }
{}

/// A woken thread takes the tokens of its wait in their order, and its mutex after them: it is
/// blocked for a token also where the mutex is free.
pub fn a_woken_thread_takes_its_tokens_first()
    ensures done { deeds taking_again (woken_and (go 2 ∷ go 2 ∷ go 1 ∷ go 1 ∷ go 1 ∷ [])) (start taking_again [])
        ≡ did.Create 1 ∷ did.Create 2 ∷ did.Lock 0 ∷ did.Wait 0 ∷ did.Take 0 ∷ did.Lock 0 ∷ did.Signal (Some 1) ∷ did.Take 1
        ∷ did.Unlock 0 ∷ did.Give 0 ∷ did.Take 0 ∷ did.Retake 0 ∷ did.Unlock 0 ∷ [] }
    ensures free { option_map (λ s. s.owners) (run taking_again (woken_and (go 2 ∷ [])) (start taking_again [])) ≡ Some (None ∷ None ∷ []) }
    ensures waits { option_map (λ s. step taking_again s (go 1)) (run taking_again (woken_and (go 2 ∷ [])) (start taking_again [])) ≡ Some NotEnabled }
    ensures blocked { option_map (λ s. blocked_for taking_again s 1) (run taking_again (woken_and (go 2 ∷ [])) (start taking_again [])) ≡ Some (Some 2) }
{}

/// A number is read and a quotient is printed; where no number is left, nothing is set, and the
/// division by 0 is undefined.
pub fn a_quotient_is_printed()
    ensures done { deeds dividing (turns (0 ∷ 0 ∷ 0 ∷ [])) (start dividing (pos 5 ∷ [])) ≡ did.Read ∷ did.Print ∷ did.End ∷ [] }
    ensures bytes { option_map (λ s. s.output) (run dividing (turns (0 ∷ 0 ∷ 0 ∷ [])) (start dividing (pos 5 ∷ []))) ≡ Some (50 ∷ 10 ∷ []) }
    ensures read { deeds dividing (turns (0 ∷ 0 ∷ [])) (start dividing []) ≡ did.Read ∷ [] }
    ensures by_zero { step dividing (after dividing (0 ∷ [])) (go 0) ≡ Undefined }
{}

/// Sums, quotients and tests of 32 bits, by tables.
pub fn expressions_have_these_values()
    ensures sums { map (λ row. constant row.0) sums ≡ map (λ row. row.1) sums }
    ensures quotients { map (λ row. constant row.0) quotients ≡ map (λ row. row.1) quotients }
    ensures tests { map (λ row. constant row.0) tests ≡ map (λ row. row.1) tests }
{}

/// A call's result goes to its target; a function that ends without a value has none to give.
pub fn calls_give_their_results()
    ensures called { option_map (λ s. s.cells) (run calling (turns (0 ∷ 0 ∷ [])) (start calling [])) ≡ Some (pos 5 ∷ []) }
    ensures without { step ending_without (after ending_without (0 ∷ [])) (go 0) ≡ Undefined }
{}

/// A local without a value isn't read.
pub fn locals_have_values_before_they_are_read()
    ensures undefined { step reading_nothing (after reading_nothing (0 ∷ [])) (go 0) ≡ Undefined }
    ensures looped { option_map (λ s. s.cells) (run looping (turns (0 ∷ 0 ∷ 0 ∷ 0 ∷ 0 ∷ 0 ∷ 0 ∷ 0 ∷ [])) (start looping [])) ≡ Some (pos 10 ∷ []) }
{}
