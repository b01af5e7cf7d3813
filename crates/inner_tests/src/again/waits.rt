// Programs that wait, call, read, print and index.

/// Each of three philosophers takes the fork at its left and the one at its right.
pub const PHILOSOPHERS: &[u8] = b"#include <pthread.h>
pthread_mutex_t forks[3];
int meals;
void *phil(void *arg) {
    int i = (int)(long)arg;
    pthread_mutex_lock(&forks[i]);
    pthread_mutex_lock(&forks[(i + 1) % 3]);
    meals++;
    pthread_mutex_unlock(&forks[(i + 1) % 3]);
    pthread_mutex_unlock(&forks[i]);
    return NULL;
}
int main(void) {
    pthread_t t[3];
    for (int k = 0; k < 3; k++) pthread_mutex_init(&forks[k], NULL);
    pthread_create(&t[0], NULL, phil, (void *)0);
    pthread_create(&t[1], NULL, phil, (void *)1);
    pthread_create(&t[2], NULL, phil, (void *)2);
    pthread_join(t[0], NULL);
    pthread_join(t[1], NULL);
    pthread_join(t[2], NULL);
    return 0;
}
";

/// A thread waits for another, and locks when it goes on.
pub const WAIT: &[u8] = b"#include <pthread.h>
pthread_mutex_t m = PTHREAD_MUTEX_INITIALIZER;
pthread_mutex_t b = PTHREAD_MUTEX_INITIALIZER;
pthread_cond_t c = PTHREAD_COND_INITIALIZER;
int f;
void *one(void *arg) {
    pthread_mutex_lock(&m);
    while (!f) {
        pthread_cond_wait(&c, &m);
    }
    pthread_mutex_lock(&b);
    pthread_mutex_unlock(&b);
    pthread_mutex_unlock(&m);
    return NULL;
}
void *two(void *arg) {
    pthread_mutex_lock(&b);
    pthread_mutex_lock(&m);
    f = 1;
    pthread_cond_signal(&c);
    pthread_mutex_unlock(&m);
    pthread_mutex_unlock(&b);
    return NULL;
}
int main(void) {
    pthread_t t[2];
    pthread_create(&t[0], NULL, one, NULL);
    pthread_create(&t[1], NULL, two, NULL);
    pthread_join(t[0], NULL);
    pthread_join(t[1], NULL);
    return 0;
}
";

/// A thread waits, and holds another lock meanwhile.
pub const WAIT_HOLDING: &[u8] = b"#include <pthread.h>
pthread_mutex_t a = PTHREAD_MUTEX_INITIALIZER;
pthread_mutex_t m = PTHREAD_MUTEX_INITIALIZER;
pthread_cond_t c = PTHREAD_COND_INITIALIZER;
int f;
void *one(void *arg) {
    pthread_mutex_lock(&a);
    pthread_mutex_lock(&m);
    while (!f) {
        pthread_cond_wait(&c, &m);
    }
    pthread_mutex_unlock(&m);
    pthread_mutex_unlock(&a);
    return NULL;
}
void *two(void *arg) {
    pthread_mutex_lock(&m);
    pthread_mutex_lock(&a);
    f = 1;
    pthread_cond_signal(&c);
    pthread_mutex_unlock(&a);
    pthread_mutex_unlock(&m);
    return NULL;
}
int main(void) {
    pthread_t t[2];
    pthread_create(&t[0], NULL, one, NULL);
    pthread_create(&t[1], NULL, two, NULL);
    pthread_join(t[0], NULL);
    pthread_join(t[1], NULL);
    return 0;
}
";

/// A lock is taken in an arm of an `if`, and never given back.
pub const LOCK_IN_ARM: &[u8] = b"#include <pthread.h>
pthread_mutex_t a = PTHREAD_MUTEX_INITIALIZER;
int k;
void *one(void *arg) {
    if (k) {
        pthread_mutex_lock(&a);
    }
    k = 0;
    return NULL;
}
int main(void) {
    pthread_t t[1];
    pthread_create(&t[0], NULL, one, NULL);
    pthread_join(t[0], NULL);
    return 0;
}
";

/// A function takes a lock that its caller holds.
pub const LOCK_IN_CALL: &[u8] = b"#include <pthread.h>
pthread_mutex_t a = PTHREAD_MUTEX_INITIALIZER;
int x;
void add(void) {
    pthread_mutex_lock(&a);
    x = x + 1;
    pthread_mutex_unlock(&a);
}
void *one(void *arg) {
    pthread_mutex_lock(&a);
    add();
    pthread_mutex_unlock(&a);
    return NULL;
}
int main(void) {
    pthread_t t[1];
    pthread_create(&t[0], NULL, one, NULL);
    pthread_join(t[0], NULL);
    return 0;
}
";

/// A number is read, and a quotient printed.
pub const QUOTIENT: &[u8] = b"#include <stdio.h>
int x;
int main(void) {
    scanf(\"%d\", &x);
    printf(\"%d\\n\", 12 / x);
    return 0;
}
";

/// Four workers take jobs from a queue and move money between two accounts.
pub const BANK: &[u8] =
    b"/* Four workers take jobs from a queue and move money between two accounts. */
#include <pthread.h>
#include <stdio.h>
#define JOBS 8
static pthread_mutex_t queue_lock = PTHREAD_MUTEX_INITIALIZER;
static pthread_cond_t not_empty = PTHREAD_COND_INITIALIZER;
static pthread_mutex_t checking = PTHREAD_MUTEX_INITIALIZER;
static pthread_mutex_t savings = PTHREAD_MUTEX_INITIALIZER;
static pthread_mutex_t log_lock = PTHREAD_MUTEX_INITIALIZER;
static int queue[JOBS];
static int head, tail, closed;
static int balance[2] = {100, 100};

static void say(int what) {
    pthread_mutex_lock(&log_lock);
    printf(\"moved %d\\n\", what);
    pthread_mutex_unlock(&log_lock);
}

static int get(void) {
    int job = -1;
    pthread_mutex_lock(&queue_lock);
    while (head == tail && !closed)
        pthread_cond_wait(&not_empty, &queue_lock);
    if (head != tail) {
        job = queue[head];
        head++;
    }
    pthread_mutex_unlock(&queue_lock);
    return job;
}

static void save(int amount) {
    pthread_mutex_lock(&checking);
    pthread_mutex_lock(&savings);
    balance[0] -= amount;
    balance[1] += amount;
    say(amount);
    pthread_mutex_unlock(&savings);
    pthread_mutex_unlock(&checking);
}

static void spend(int amount) {
    pthread_mutex_lock(&savings);
    pthread_mutex_lock(&checking);
    balance[1] -= amount;
    balance[0] += amount;
    say(amount);
    pthread_mutex_unlock(&checking);
    pthread_mutex_unlock(&savings);
}

static void *worker(void *arg) {
    int id = (int)(long)arg;
    int job = get();
    while (job >= 0) {
        if ((job + id) % 2 == 0) save(job); else spend(job);
        job = get();
    }
    return NULL;
}

int main(void) {
    pthread_t t[4];
    int i;
    pthread_create(&t[0], NULL, worker, (void *)(long)0);
    pthread_create(&t[1], NULL, worker, (void *)(long)1);
    pthread_create(&t[2], NULL, worker, (void *)(long)2);
    pthread_create(&t[3], NULL, worker, (void *)(long)3);
    for (i = 1; i <= JOBS; i++) {
        pthread_mutex_lock(&queue_lock);
        queue[tail] = i;
        tail++;
        pthread_cond_signal(&not_empty);
        pthread_mutex_unlock(&queue_lock);
    }
    pthread_mutex_lock(&queue_lock);
    closed = 1;
    pthread_cond_broadcast(&not_empty);
    pthread_mutex_unlock(&queue_lock);
    pthread_join(t[0], NULL);
    pthread_join(t[1], NULL);
    pthread_join(t[2], NULL);
    pthread_join(t[3], NULL);
    printf(\"%d %d\\n\", balance[0], balance[1]);
    return 0;
}
";
