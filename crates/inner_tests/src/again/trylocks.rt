// Programs that try to lock, and waits that take tokens where there are no monitors.

/// How these programs begin, up to the choice.
pub const HEAD: &[u8] = b"#include <pthread.h>
#define FREE 0
pthread_mutex_t a;
int x;
int main(void) {
";

/// One choice, spelled in several ways.
pub const SPELLINGS: [&[u8]; 8] = [
    b"if (pthread_mutex_trylock(&a)) x++; else { x = 2; pthread_mutex_unlock(&a); }",
    b"if (!pthread_mutex_trylock(&a)) { x = 2; pthread_mutex_unlock(&a); } else x++;",
    b"if (pthread_mutex_trylock(&a) == 0) { x = 2; pthread_mutex_unlock(&a); } else { x++; }",
    b"if (pthread_mutex_trylock(&a) != 0) x++; else { x = 2; pthread_mutex_unlock(&a); }",
    b"if (pthread_mutex_trylock(&a) == FREE) { x = 2; pthread_mutex_unlock(&a); } else x++;",
    b"if (pthread_mutex_trylock(&a) != FREE) { x++; } else { x = 2; pthread_mutex_unlock(&a); }",
    b"if(pthread_mutex_trylock(&a)!=0)x++;else{x=2;pthread_mutex_unlock(&a);}",
    b"if (! pthread_mutex_trylock ( & a ) ) { x = 2; ; pthread_mutex_unlock(&a); } else x += 1;",
];

/// How they end.
pub const END: &[u8] = b"
    return 0;
}
";

/// What is printed of each.
pub const PRINTED: &[u8] = b"#include <pthread.h>
#include <stdio.h>
int x = 0;
pthread_mutex_t a;

int main(void) {
    if (pthread_mutex_trylock(&a) == 0) {
        x = 2;
        pthread_mutex_unlock(&a);
    } else {
        x = x + 1;
    }
    return 0;
}
";

/// A canonical text with trylocks in the arms of choices, and without an arm of their own.
pub const CHAIN: &[u8] = b"#include <pthread.h>
#include <stdio.h>
int x = 0;
pthread_mutex_t m[3];

int main(void) {
    if (pthread_mutex_trylock(&m[x % 3]) == 0) {
        pthread_mutex_unlock(&m[x % 3]);
    } else if (pthread_mutex_trylock(&m[1]) == 0) {
        pthread_mutex_unlock(&m[1]);
    } else if (x) {
        if (pthread_mutex_trylock(&m[2]) == 0) {
        } else {
            if (pthread_mutex_trylock(&m[0]) == 0) {
            }
            x = 1;
        }
    }
    return 0;
}
";

/// A canonical text of a wait that takes tokens, where no monitors are declared.
pub const NO_MONITORS: &[u8] = b"#include <pthread.h>
#include <stdio.h>
pthread_mutex_t a = PTHREAD_MUTEX_INITIALIZER;
pthread_cond_t c[2];

int main(void) {
    gd_cond_wait(&c[1], &a, 0, 3, 0, 2147483647, -1);
    return 0;
}
";

/// A wait that takes no tokens, with the declaration of those that do.
pub const PLAIN_WAIT: &[u8] = b"int gd_cap[1] = {1}; void gd_take(int k); void gd_give(int k);
void gd_cond_wait(pthread_cond_t *c, pthread_mutex_t *m, ...);
pthread_mutex_t a; pthread_cond_t c;
int main() { pthread_cond_wait(&c, &a); return 0; }
";

/// What is printed of it.
pub const PLAIN_PRINTED: &[u8] = b"#include <pthread.h>
#include <stdio.h>
int gd_cap[1] = {1};
void gd_take(int k);
void gd_give(int k);
pthread_mutex_t a;
pthread_cond_t c;

int main(void) {
    pthread_cond_wait(&c, &a);
    return 0;
}
";
