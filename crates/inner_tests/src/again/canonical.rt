// Canonical texts: each is what is printed of its program.

/// Two threads that lock in both orders, behind a monitor.
pub const TWO_THREADS: &[u8] = b"#include <pthread.h>
#include <stdio.h>
int gd_cap[1] = {1};
void gd_take(int k);
void gd_give(int k);
int x = 0;
pthread_mutex_t a = PTHREAD_MUTEX_INITIALIZER;
pthread_mutex_t b = PTHREAD_MUTEX_INITIALIZER;
pthread_t t[2];

void *one(void *arg) {
    gd_take(0);
    pthread_mutex_lock(&a);
    pthread_mutex_lock(&b);
    x = x + 1;
    pthread_mutex_unlock(&b);
    gd_give(0);
    pthread_mutex_unlock(&a);
    return NULL;
}

void *two(void *arg) {
    gd_take(0);
    pthread_mutex_lock(&b);
    pthread_mutex_lock(&a);
    x = x + 1;
    pthread_mutex_unlock(&a);
    gd_give(0);
    pthread_mutex_unlock(&b);
    return NULL;
}

int main(void) {
    pthread_create(&t[0], NULL, one, (void *)(long)0);
    pthread_create(&t[1], NULL, two, (void *)(long)0);
    pthread_join(t[0], NULL);
    pthread_join(t[1], NULL);
    return 0;
}
";

/// Three philosophers behind a monitor for two, each with a function of its own.
pub const THREE_PHILOSOPHERS: &[u8] = b"#include <pthread.h>
#include <stdio.h>
int gd_cap[1] = {2};
void gd_take(int k);
void gd_give(int k);
int meals = 0;
pthread_mutex_t forks[3];
pthread_t t[3];

void *phil_gd1(void *arg) {
    int i = (int)(long)arg;
    gd_take(0);
    pthread_mutex_lock(&forks[i]);
    pthread_mutex_lock(&forks[(i + 1) % 3]);
    meals = meals + 1;
    pthread_mutex_unlock(&forks[(i + 1) % 3]);
    gd_give(0);
    pthread_mutex_unlock(&forks[i]);
    return NULL;
}

void *phil_gd2(void *arg) {
    int i = (int)(long)arg;
    gd_take(0);
    pthread_mutex_lock(&forks[i]);
    pthread_mutex_lock(&forks[(i + 1) % 3]);
    meals = meals + 1;
    pthread_mutex_unlock(&forks[(i + 1) % 3]);
    gd_give(0);
    pthread_mutex_unlock(&forks[i]);
    return NULL;
}

void *phil_gd3(void *arg) {
    int i = (int)(long)arg;
    gd_take(0);
    pthread_mutex_lock(&forks[i]);
    pthread_mutex_lock(&forks[(i + 1) % 3]);
    meals = meals + 1;
    pthread_mutex_unlock(&forks[(i + 1) % 3]);
    gd_give(0);
    pthread_mutex_unlock(&forks[i]);
    return NULL;
}

int main(void) {
    for (int k = 0; k < 3; k = k + 1) {
        pthread_mutex_init(&forks[k], NULL);
    }
    pthread_create(&t[0], NULL, phil_gd1, (void *)(long)0);
    pthread_create(&t[1], NULL, phil_gd2, (void *)(long)1);
    pthread_create(&t[2], NULL, phil_gd3, (void *)(long)2);
    pthread_join(t[0], NULL);
    pthread_join(t[1], NULL);
    pthread_join(t[2], NULL);
    return 0;
}
";

/// Four threads that lock in a circle, behind two monitors.
pub const TWO_MONITORS: &[u8] = b"#include <pthread.h>
#include <stdio.h>
int gd_cap[2] = {1, 2};
void gd_take(int k);
void gd_give(int k);
int x = 0;
pthread_mutex_t a = PTHREAD_MUTEX_INITIALIZER;
pthread_mutex_t b = PTHREAD_MUTEX_INITIALIZER;
pthread_mutex_t c = PTHREAD_MUTEX_INITIALIZER;
pthread_t t[4];

void *one(void *arg) {
    gd_take(0);
    gd_take(1);
    pthread_mutex_lock(&a);
    pthread_mutex_lock(&b);
    x = x + 1;
    pthread_mutex_unlock(&b);
    gd_give(1);
    gd_give(0);
    pthread_mutex_unlock(&a);
    return NULL;
}

void *two(void *arg) {
    gd_take(1);
    pthread_mutex_lock(&b);
    pthread_mutex_lock(&c);
    x = x + 1;
    pthread_mutex_unlock(&c);
    gd_give(1);
    pthread_mutex_unlock(&b);
    return NULL;
}

void *three(void *arg) {
    gd_take(1);
    pthread_mutex_lock(&c);
    pthread_mutex_lock(&a);
    x = x + 1;
    pthread_mutex_unlock(&a);
    gd_give(1);
    pthread_mutex_unlock(&c);
    return NULL;
}

void *four(void *arg) {
    gd_take(0);
    gd_take(1);
    pthread_mutex_lock(&b);
    pthread_mutex_lock(&a);
    x = x + 1;
    pthread_mutex_unlock(&a);
    gd_give(1);
    gd_give(0);
    pthread_mutex_unlock(&b);
    return NULL;
}

int main(void) {
    pthread_create(&t[0], NULL, one, (void *)(long)0);
    pthread_create(&t[1], NULL, two, (void *)(long)0);
    pthread_create(&t[2], NULL, three, (void *)(long)0);
    pthread_create(&t[3], NULL, four, (void *)(long)0);
    pthread_join(t[0], NULL);
    pthread_join(t[1], NULL);
    pthread_join(t[2], NULL);
    pthread_join(t[3], NULL);
    return 0;
}
";

/// A monitor that is left in both arms of an `if`.
pub const MONITOR_IN_ARMS: &[u8] = b"#include <pthread.h>
#include <stdio.h>
int gd_cap[1] = {1};
void gd_take(int k);
void gd_give(int k);
int k = 0;
int x = 0;
pthread_mutex_t a = PTHREAD_MUTEX_INITIALIZER;
pthread_mutex_t b = PTHREAD_MUTEX_INITIALIZER;
pthread_t t[2];

void *one(void *arg) {
    gd_take(0);
    pthread_mutex_lock(&a);
    if (k) {
        pthread_mutex_lock(&b);
        x = x + 1;
        pthread_mutex_unlock(&b);
        gd_give(0);
    } else {
        gd_give(0);
    }
    pthread_mutex_unlock(&a);
    return NULL;
}

void *two(void *arg) {
    gd_take(0);
    pthread_mutex_lock(&b);
    pthread_mutex_lock(&a);
    x = x + 1;
    pthread_mutex_unlock(&a);
    gd_give(0);
    pthread_mutex_unlock(&b);
    return NULL;
}

int main(void) {
    pthread_create(&t[0], NULL, one, (void *)(long)0);
    pthread_create(&t[1], NULL, two, (void *)(long)0);
    pthread_join(t[0], NULL);
    pthread_join(t[1], NULL);
    return 0;
}
";

/// Two monitors that are left in both arms of an `if`.
pub const MONITORS_IN_ARMS: &[u8] = b"#include <pthread.h>
#include <stdio.h>
int gd_cap[2] = {1, 1};
void gd_take(int k);
void gd_give(int k);
int k = 0;
int x = 0;
pthread_mutex_t a = PTHREAD_MUTEX_INITIALIZER;
pthread_mutex_t b = PTHREAD_MUTEX_INITIALIZER;
pthread_mutex_t l = PTHREAD_MUTEX_INITIALIZER;
pthread_t t[2];

void *one(void *arg) {
    gd_take(1);
    pthread_mutex_lock(&a);
    gd_take(0);
    pthread_mutex_lock(&l);
    if (k) {
        pthread_mutex_lock(&b);
        x = x + 1;
        pthread_mutex_unlock(&b);
        gd_give(0);
        gd_give(1);
    } else {
        gd_give(0);
        gd_give(1);
    }
    pthread_mutex_unlock(&l);
    pthread_mutex_unlock(&a);
    return NULL;
}

void *two(void *arg) {
    gd_take(1);
    gd_take(0);
    pthread_mutex_lock(&b);
    pthread_mutex_lock(&a);
    x = x + 1;
    pthread_mutex_unlock(&a);
    gd_give(1);
    gd_give(0);
    pthread_mutex_unlock(&b);
    return NULL;
}

int main(void) {
    pthread_create(&t[0], NULL, one, (void *)(long)0);
    pthread_create(&t[1], NULL, two, (void *)(long)0);
    pthread_join(t[0], NULL);
    pthread_join(t[1], NULL);
    return 0;
}
";

/// A wait that takes the token of a monitor.
pub const TAKING_WAIT: &[u8] = b"#include <pthread.h>
#include <stdio.h>
int gd_cap[1] = {1};
void gd_take(int k);
void gd_give(int k);
void gd_cond_wait(pthread_cond_t *c, pthread_mutex_t *m, ...);
int f = 0;
pthread_mutex_t m = PTHREAD_MUTEX_INITIALIZER;
pthread_mutex_t b = PTHREAD_MUTEX_INITIALIZER;
pthread_cond_t c = PTHREAD_COND_INITIALIZER;
pthread_t t[2];

void *one(void *arg) {
    gd_take(0);
    pthread_mutex_lock(&m);
    while (!f) {
        gd_give(0);
        gd_cond_wait(&c, &m, 0, -1);
    }
    pthread_mutex_lock(&b);
    pthread_mutex_unlock(&b);
    gd_give(0);
    pthread_mutex_unlock(&m);
    return NULL;
}

void *two(void *arg) {
    gd_take(0);
    pthread_mutex_lock(&b);
    pthread_mutex_lock(&m);
    f = 1;
    pthread_cond_signal(&c);
    pthread_mutex_unlock(&m);
    gd_give(0);
    pthread_mutex_unlock(&b);
    return NULL;
}

int main(void) {
    pthread_create(&t[0], NULL, one, (void *)(long)0);
    pthread_create(&t[1], NULL, two, (void *)(long)0);
    pthread_join(t[0], NULL);
    pthread_join(t[1], NULL);
    return 0;
}
";
