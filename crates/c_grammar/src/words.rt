// The words that the grammar spells out.

/// A word that the grammar spells out: a keyword of C (ISO/IEC 9899:1999, section 6.4.1) that has
/// a place in it, or a name of the library, of POSIX threads, or of the tool's own.
#[derive(Clone, Copy, Debug, PartialEq, Eq)]
pub enum FixedWord {
    /// `int`
    Int,
    /// `void`
    Void,
    /// `static`
    Static,
    /// `long`
    Long,
    /// `if`
    If,
    /// `else`
    Else,
    /// `while`
    While,
    /// `for`
    For,
    /// `return`
    Return,
    /// `main`
    Main,
    /// `k`, the parameter in the declarations of `gd_take` and `gd_give`
    Parameter,
    /// `c`, the condition in the declaration of `gd_cond_wait`
    ConditionParameter,
    /// `m`, the mutex in the declaration of `gd_cond_wait`
    MutexParameter,
    /// `NULL`
    Null,
    /// `intptr_t`
    IntPointer,
    /// `printf`
    Print,
    /// `scanf`
    Scan,
    /// `pthread_t`
    Thread,
    /// `pthread_mutex_t`
    Mutex,
    /// `pthread_cond_t`
    Condition,
    /// `PTHREAD_MUTEX_INITIALIZER`
    MutexInitializer,
    /// `PTHREAD_COND_INITIALIZER`
    ConditionInitializer,
    /// `pthread_create`
    Create,
    /// `pthread_join`
    Join,
    /// `pthread_mutex_init`
    InitMutex,
    /// `pthread_cond_init`
    InitCondition,
    /// `pthread_mutex_lock`
    Lock,
    /// `pthread_mutex_trylock`
    TryLock,
    /// `pthread_mutex_unlock`
    Unlock,
    /// `pthread_cond_wait`
    Wait,
    /// `pthread_cond_signal`
    Signal,
    /// `pthread_cond_broadcast`
    Broadcast,
    /// `gd_cap`
    Capacities,
    /// `gd_take`
    Take,
    /// `gd_give`
    Give,
    /// `gd_cond_wait`
    ControlledWait,
}
