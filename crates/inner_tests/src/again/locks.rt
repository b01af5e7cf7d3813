// Programs in which threads take locks in this order and that.

/// Both threads take the same lock.
pub const ONE_LOCK: &[u8] = b"#include <pthread.h>
pthread_mutex_t a = PTHREAD_MUTEX_INITIALIZER;
int x;
void *one(void *arg) {
    pthread_mutex_lock(&a);
    x = x + 1;
    pthread_mutex_unlock(&a);
    return NULL;
}
void *two(void *arg) {
    pthread_mutex_lock(&a);
    x = x + 2;
    pthread_mutex_unlock(&a);
    return NULL;
}
int main(void) {
    pthread_t t[2];
    pthread_create(&t[0], NULL, one, NULL);
    pthread_create(&t[1], NULL, two, NULL);
    pthread_join(t[0], NULL);
    pthread_join(t[1], NULL);
    return 0;
}
";

/// Two threads take two locks in both orders.
pub const BOTH_ORDERS: &[u8] = b"#include <pthread.h>
pthread_mutex_t a = PTHREAD_MUTEX_INITIALIZER;
pthread_mutex_t b = PTHREAD_MUTEX_INITIALIZER;
int x;
void *one(void *arg) {
    pthread_mutex_lock(&a);
    pthread_mutex_lock(&b);
    x = x + 1;
    pthread_mutex_unlock(&b);
    pthread_mutex_unlock(&a);
    return NULL;
}
void *two(void *arg) {
    pthread_mutex_lock(&b);
    pthread_mutex_lock(&a);
    x = x + 1;
    pthread_mutex_unlock(&a);
    pthread_mutex_unlock(&b);
    return NULL;
}
int main(void) {
    pthread_t t[2];
    pthread_create(&t[0], NULL, one, NULL);
    pthread_create(&t[1], NULL, two, NULL);
    pthread_join(t[0], NULL);
    pthread_join(t[1], NULL);
    return 0;
}
";

/// The same behind a third lock.
pub const GUARDED: &[u8] = b"#include <pthread.h>
pthread_mutex_t a = PTHREAD_MUTEX_INITIALIZER;
pthread_mutex_t b = PTHREAD_MUTEX_INITIALIZER;
pthread_mutex_t g = PTHREAD_MUTEX_INITIALIZER;
int x;
void *one(void *arg) {
    pthread_mutex_lock(&g);
    pthread_mutex_lock(&a);
    pthread_mutex_lock(&b);
    x = x + 1;
    pthread_mutex_unlock(&b);
    pthread_mutex_unlock(&a);
    pthread_mutex_unlock(&g);
    return NULL;
}
void *two(void *arg) {
    pthread_mutex_lock(&g);
    pthread_mutex_lock(&b);
    pthread_mutex_lock(&a);
    x = x + 1;
    pthread_mutex_unlock(&a);
    pthread_mutex_unlock(&b);
    pthread_mutex_unlock(&g);
    return NULL;
}
int main(void) {
    pthread_t t[2];
    pthread_create(&t[0], NULL, one, NULL);
    pthread_create(&t[1], NULL, two, NULL);
    pthread_join(t[0], NULL);
    pthread_join(t[1], NULL);
    return 0;
}
";

/// One thread takes two locks in both orders, one after the other.
pub const ONE_THREAD: &[u8] = b"#include <pthread.h>
pthread_mutex_t a = PTHREAD_MUTEX_INITIALIZER;
pthread_mutex_t b = PTHREAD_MUTEX_INITIALIZER;
int x;
void *one(void *arg) {
    pthread_mutex_lock(&a);
    pthread_mutex_lock(&b);
    x = x + 1;
    pthread_mutex_unlock(&b);
    pthread_mutex_unlock(&a);
    pthread_mutex_lock(&b);
    pthread_mutex_lock(&a);
    x = x + 1;
    pthread_mutex_unlock(&a);
    pthread_mutex_unlock(&b);
    return NULL;
}
void *two(void *arg) {
    pthread_mutex_lock(&a);
    x = x + 2;
    pthread_mutex_unlock(&a);
    return NULL;
}
int main(void) {
    pthread_t t[2];
    pthread_create(&t[0], NULL, one, NULL);
    pthread_create(&t[1], NULL, two, NULL);
    pthread_join(t[0], NULL);
    pthread_join(t[1], NULL);
    return 0;
}
";

/// Four threads take three locks in a circle.
pub const FOUR_THREADS: &[u8] = b"#include <pthread.h>
pthread_mutex_t a = PTHREAD_MUTEX_INITIALIZER;
pthread_mutex_t b = PTHREAD_MUTEX_INITIALIZER;
pthread_mutex_t c = PTHREAD_MUTEX_INITIALIZER;
int x;
void *one(void *arg) {
    pthread_mutex_lock(&a);
    pthread_mutex_lock(&b);
    x = x + 1;
    pthread_mutex_unlock(&b);
    pthread_mutex_unlock(&a);
    return NULL;
}
void *two(void *arg) {
    pthread_mutex_lock(&b);
    pthread_mutex_lock(&c);
    x = x + 1;
    pthread_mutex_unlock(&c);
    pthread_mutex_unlock(&b);
    return NULL;
}
void *three(void *arg) {
    pthread_mutex_lock(&c);
    pthread_mutex_lock(&a);
    x = x + 1;
    pthread_mutex_unlock(&a);
    pthread_mutex_unlock(&c);
    return NULL;
}
void *four(void *arg) {
    pthread_mutex_lock(&b);
    pthread_mutex_lock(&a);
    x = x + 1;
    pthread_mutex_unlock(&a);
    pthread_mutex_unlock(&b);
    return NULL;
}
int main(void) {
    pthread_t t[4];
    pthread_create(&t[0], NULL, one, NULL);
    pthread_create(&t[1], NULL, two, NULL);
    pthread_create(&t[2], NULL, three, NULL);
    pthread_create(&t[3], NULL, four, NULL);
    pthread_join(t[0], NULL);
    pthread_join(t[1], NULL);
    pthread_join(t[2], NULL);
    pthread_join(t[3], NULL);
    return 0;
}
";

/// One thread takes its second lock in an arm of an `if`.
pub const BRANCH: &[u8] = b"#include <pthread.h>
pthread_mutex_t a = PTHREAD_MUTEX_INITIALIZER;
pthread_mutex_t b = PTHREAD_MUTEX_INITIALIZER;
int k;
int x;
void *one(void *arg) {
    pthread_mutex_lock(&a);
    if (k) {
        pthread_mutex_lock(&b);
        x = x + 1;
        pthread_mutex_unlock(&b);
    }
    pthread_mutex_unlock(&a);
    return NULL;
}
void *two(void *arg) {
    pthread_mutex_lock(&b);
    pthread_mutex_lock(&a);
    x = x + 1;
    pthread_mutex_unlock(&a);
    pthread_mutex_unlock(&b);
    return NULL;
}
int main(void) {
    pthread_t t[2];
    pthread_create(&t[0], NULL, one, NULL);
    pthread_create(&t[1], NULL, two, NULL);
    pthread_join(t[0], NULL);
    pthread_join(t[1], NULL);
    return 0;
}
";

/// The same with a third lock around the `if`.
pub const GUARDED_BRANCH: &[u8] = b"#include <pthread.h>
pthread_mutex_t a = PTHREAD_MUTEX_INITIALIZER;
pthread_mutex_t b = PTHREAD_MUTEX_INITIALIZER;
pthread_mutex_t l = PTHREAD_MUTEX_INITIALIZER;
int k;
int x;
void *one(void *arg) {
    pthread_mutex_lock(&a);
    pthread_mutex_lock(&l);
    if (k) {
        pthread_mutex_lock(&b);
        x = x + 1;
        pthread_mutex_unlock(&b);
    }
    pthread_mutex_unlock(&l);
    pthread_mutex_unlock(&a);
    return NULL;
}
void *two(void *arg) {
    pthread_mutex_lock(&b);
    pthread_mutex_lock(&a);
    x = x + 1;
    pthread_mutex_unlock(&a);
    pthread_mutex_unlock(&b);
    return NULL;
}
int main(void) {
    pthread_t t[2];
    pthread_create(&t[0], NULL, one, NULL);
    pthread_create(&t[1], NULL, two, NULL);
    pthread_join(t[0], NULL);
    pthread_join(t[1], NULL);
    return 0;
}
";
