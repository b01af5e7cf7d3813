// The command `runtime`.
ghost use Rattle.std.specs.Prelude.{◌≡◌};
ghost use Rattle.answers.specs.Refusing.{Ends};
ghost use Rattle.answers.specs.Traced.{lined};
ghost use Rattle.answers.specs.Runtime.{causes, runtime_lines};

use crate::answer::Answer;
use crate::refusal::Refusal;
use crate::status::Status;
use std::alloc::Global;

/// The C text of the calls of monitors: a monitor counts the tokens that are taken from it, and a thread that
/// finds none waits until one is given (POSIX mutexes and condition variables).
fn runtime_text() -> &'static [u8]
    ensures { result.now ≡ lined runtime_lines }
{
    b"#include <pthread.h>\n#include <stdarg.h>\nextern int gd_cap[];\nstatic pthread_mutex_t gd_lock = PTHREAD_MUTEX_INITIALIZER;\nstatic pthread_cond_t gd_free = PTHREAD_COND_INITIALIZER;\nstatic int gd_used[16];\n\nvoid gd_take(int k) {\n    pthread_mutex_lock(&gd_lock);\n    while (gd_used[k] >= gd_cap[k]) {\n        pthread_cond_wait(&gd_free, &gd_lock);\n    }\n    gd_used[k] = gd_used[k] + 1;\n    pthread_mutex_unlock(&gd_lock);\n}\n\nvoid gd_give(int k) {\n    pthread_mutex_lock(&gd_lock);\n    gd_used[k] = gd_used[k] - 1;\n    pthread_cond_broadcast(&gd_free);\n    pthread_mutex_unlock(&gd_lock);\n}\n\nvoid gd_cond_wait(pthread_cond_t *c, pthread_mutex_t *m, ...) {\n    va_list list;\n    int k;\n    pthread_cond_wait(c, m);\n    pthread_mutex_unlock(m);\n    va_start(list, m);\n    for (k = va_arg(list, int); k >= 0; k = va_arg(list, int)) {\n        gd_take(k);\n    }\n    va_end(list);\n    pthread_mutex_lock(m);\n}\n"
}

/// What `runtime` answers.
pub fn runtime(alloc: Global) -> Result<Answer, Refusal>
    ensures { Ends causes result }
{
    Ok(Answer::new(Status::Done, Vec::from_slice(alloc, runtime_text())?))
}
