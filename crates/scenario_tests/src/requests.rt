//! Requests with what they are answered, which stand in .ci/rows/requests.rows (`.ci/scenarios` writes them
//! here).
use lock_manager::Config;

/// The manager that each script is run with, the script, and what it prints.
pub static REQUESTS: [(Config, &str, &str); 33] = [
    (
        Config {
            sessions: 8,
            max_local: 1024,
            slot_groups: 1,
        },
        "session a 5\ntry a 5/16384 AccessShareLock\nlist a\n",
        "a: session 0 database 5\na: granted\nfast a 15 5/16384 AccessShareLock\nrows 1\n",
    ),
    (
        Config {
            sessions: 8,
            max_local: 1024,
            slot_groups: 1,
        },
        "session a 5\nfast a 5/16384 AccessShareLock\nfast a 5/16384 RowExclusiveLock\n\
         fast a 5/16384 ShareUpdateExclusiveLock\nlist a\n",
        "a: session 0 database 5\na: granted\na: granted\na: refused 11 not eligible\n\
         fast a 15 5/16384 AccessShareLock\nfast a 15 5/16384 RowExclusiveLock\nrows 2\n",
    ),
    (
        Config {
            sessions: 8,
            max_local: 1024,
            slot_groups: 1,
        },
        "session a 5\ntry a 5/16384 ShareLock\ntry a 5/16384 RowExclusiveLock\ncount a 796\nlist a\n",
        "a: session 0 database 5\na: granted\na: granted\nstrong 796 1\n\
         table a 5/16384 RowExclusiveLock granted\ntable a 5/16384 ShareLock granted\nrows 2\n",
    ),
    (
        Config {
            sessions: 8,
            max_local: 1024,
            slot_groups: 1,
        },
        "session a 5\nsession b 5\ntry a 5/16384 RowExclusiveLock\ntry b 5/16384 ShareLock\ncount a 796\n\
         list a\n",
        "a: session 0 database 5\nb: session 1 database 5\na: granted\n\
         b: refused 1 conflict a RowExclusiveLock held\nstrong 796 0\n\
         table a 5/16384 RowExclusiveLock granted\nrows 1\n",
    ),
    (
        Config {
            sessions: 8,
            max_local: 1024,
            slot_groups: 1,
        },
        "session a 5\nsession b 5\ntry a 5/16384 AccessShareLock\nlock b 5/16384 AccessExclusiveLock\n\
         count a 796\nwaiters a 5/16384 AccessShareLock\nlist a\nunlock a 5/16384 AccessShareLock\n\
         commit b\ncount a 796\n",
        "a: session 0 database 5\nb: session 1 database 5\na: granted\nb: waits\nstrong 796 1\n\
         a: waiters yes\ntable a 5/16384 AccessShareLock granted\n\
         table b 5/16384 AccessExclusiveLock awaited\nrows 2\na: released\nb: granted after waiting\n\
         b: committed\nstrong 796 0\n",
    ),
    (
        Config {
            sessions: 8,
            max_local: 1024,
            slot_groups: 1,
        },
        "session a 5\nsession b 5\ntry a 5/16384 AccessExclusiveLock\ntry b 5/17408 AccessShareLock\n\
         fast b 5/17408 RowShareLock\nhash 5/16384\nhash 5/17408\nlist a\n",
        "a: session 0 database 5\nb: session 1 database 5\na: granted\nb: granted\n\
         b: refused 10 strong lock counted\nhash 2389211932 partition 12 strong 796\n\
         hash 3334897436 partition 12 strong 796\ntable a 5/16384 AccessExclusiveLock granted\n\
         table b 5/17408 AccessShareLock granted\nrows 2\n",
    ),
    (
        Config {
            sessions: 8,
            max_local: 1024,
            slot_groups: 1,
        },
        "session a 5\nsession b 5\nsession c 5\ntry a 5/16384 AccessShareLock\n\
         lock b 5/16384 AccessExclusiveLock\ntry c 5/16384 AccessShareLock\n",
        "a: session 0 database 5\nb: session 1 database 5\nc: session 2 database 5\na: granted\n\
         b: waits\nc: refused 1 conflict b AccessExclusiveLock awaited\n",
    ),
    (
        Config {
            sessions: 8,
            max_local: 1024,
            slot_groups: 1,
        },
        "session a 5\nsession b 5\nsession c 5\nsession d 5\nsession e 5\n\
         lock a 5/16384 AccessExclusiveLock\nlock b 5/16384 ShareLock\nlock c 5/16384 RowExclusiveLock\n\
         lock d 5/16384 RowShareLock\nlock e 5/16384 ShareLock\nunlock a 5/16384 AccessExclusiveLock\n\
         unlock b 5/16384 ShareLock\n",
        "a: session 0 database 5\nb: session 1 database 5\nc: session 2 database 5\n\
         d: session 3 database 5\ne: session 4 database 5\na: granted\nb: waits\nc: waits\nd: waits\n\
         e: waits\na: released\nb: granted after waiting\nd: granted after waiting\nb: released\n\
         c: granted after waiting\n",
    ),
    (
        Config {
            sessions: 8,
            max_local: 1024,
            slot_groups: 1,
        },
        "session a 5\nsession b 5\ntry a 5/16384 AccessShareLock\nlock b 5/16384 AccessExclusiveLock\n\
         try a 5/16384 RowExclusiveLock\nlock a 5/16384 RowExclusiveLock\n",
        "a: session 0 database 5\nb: session 1 database 5\na: granted\nb: waits\n\
         a: refused 1 conflict b AccessExclusiveLock awaited\na: granted\n",
    ),
    (
        Config {
            sessions: 8,
            max_local: 1024,
            slot_groups: 1,
        },
        "session a 5\nsession b 5\nsession c 5\ntry a 5/16384 AccessShareLock\n\
         try c 5/16384 RowExclusiveLock\nlock b 5/16384 AccessExclusiveLock\nlock a 5/16384 ShareLock\n\
         unlock c 5/16384 RowExclusiveLock\n",
        "a: session 0 database 5\nb: session 1 database 5\nc: session 2 database 5\na: granted\n\
         c: granted\nb: waits\na: waits\nc: released\na: granted after waiting\n",
    ),
    (
        Config {
            sessions: 8,
            max_local: 1024,
            slot_groups: 1,
        },
        "session a 5\nsession b 5\ntry a 5/16384 ShareLock\ntry b 5/16384 ShareLock\n\
         lock a 5/16384 ExclusiveLock\nlock b 5/16384 ExclusiveLock\ncount b 796\n\
         unlock b 5/16384 ShareLock\ncount b 796\n",
        "a: session 0 database 5\nb: session 1 database 5\na: granted\nb: granted\na: waits\n\
         b: refused 5 simple deadlock a\nstrong 796 3\nb: released\na: granted after waiting\n\
         strong 796 2\n",
    ),
    (
        Config {
            sessions: 8,
            max_local: 1024,
            slot_groups: 1,
        },
        "session a 5\ntry a 5/16384 AccessShareLock\ntry a 5/16385 AccessShareLock\n\
         try a 5/16386 AccessShareLock\ntry a 5/16387 AccessShareLock\ntry a 5/16388 AccessShareLock\n\
         try a 5/16389 AccessShareLock\ntry a 5/16390 AccessShareLock\ntry a 5/16391 AccessShareLock\n\
         try a 5/16392 AccessShareLock\ntry a 5/16393 AccessShareLock\ntry a 5/16394 AccessShareLock\n\
         try a 5/16395 AccessShareLock\ntry a 5/16396 AccessShareLock\ntry a 5/16397 AccessShareLock\n\
         try a 5/16398 AccessShareLock\ntry a 5/16399 AccessShareLock\ntry a 5/16400 AccessShareLock\n\
         try a 5/16384 RowShareLock\nlist a\nfast a 5/16401 AccessShareLock\n",
        "a: session 0 database 5\na: granted\na: granted\na: granted\na: granted\na: granted\n\
         a: granted\na: granted\na: granted\na: granted\na: granted\na: granted\na: granted\na: granted\n\
         a: granted\na: granted\na: granted\na: granted\na: granted\nfast a 0 5/16399 AccessShareLock\n\
         fast a 1 5/16398 AccessShareLock\nfast a 2 5/16397 AccessShareLock\n\
         fast a 3 5/16396 AccessShareLock\nfast a 4 5/16395 AccessShareLock\n\
         fast a 5 5/16394 AccessShareLock\nfast a 6 5/16393 AccessShareLock\n\
         fast a 7 5/16392 AccessShareLock\nfast a 8 5/16391 AccessShareLock\n\
         fast a 9 5/16390 AccessShareLock\nfast a 10 5/16389 AccessShareLock\n\
         fast a 11 5/16388 AccessShareLock\nfast a 12 5/16387 AccessShareLock\n\
         fast a 13 5/16386 AccessShareLock\nfast a 14 5/16385 AccessShareLock\n\
         fast a 15 5/16384 AccessShareLock\ntable a 5/16384 RowShareLock granted\n\
         table a 5/16400 AccessShareLock granted\nrows 18\na: refused 9 slots full\n",
    ),
    (
        Config {
            sessions: 8,
            max_local: 1024,
            slot_groups: 1,
        },
        "session a 5\nsession b 5\ntry a 5/16384 AccessShareLock\ntry a 5/16385 AccessShareLock\n\
         try a 5/16386 AccessShareLock\ntry a 5/16387 AccessShareLock\ntry a 5/16388 AccessShareLock\n\
         try a 5/16389 AccessShareLock\ntry a 5/16390 AccessShareLock\ntry a 5/16391 AccessShareLock\n\
         try a 5/16392 AccessShareLock\ntry a 5/16393 AccessShareLock\ntry a 5/16394 AccessShareLock\n\
         try a 5/16395 AccessShareLock\ntry a 5/16396 AccessShareLock\ntry a 5/16397 AccessShareLock\n\
         try a 5/16398 AccessShareLock\ntry a 5/16399 AccessShareLock\n\
         lock b 5/16384 AccessExclusiveLock\ntry a 5/16400 AccessShareLock\n\
         unlock a 5/16399 AccessShareLock\ntry a 5/16401 AccessShareLock\nlist a\n",
        "a: session 0 database 5\nb: session 1 database 5\na: granted\na: granted\na: granted\n\
         a: granted\na: granted\na: granted\na: granted\na: granted\na: granted\na: granted\na: granted\n\
         a: granted\na: granted\na: granted\na: granted\na: granted\nb: waits\na: granted\na: released\n\
         a: granted\nfast a 1 5/16398 AccessShareLock\nfast a 2 5/16397 AccessShareLock\n\
         fast a 3 5/16396 AccessShareLock\nfast a 4 5/16395 AccessShareLock\n\
         fast a 5 5/16394 AccessShareLock\nfast a 6 5/16393 AccessShareLock\n\
         fast a 7 5/16392 AccessShareLock\nfast a 8 5/16391 AccessShareLock\n\
         fast a 9 5/16390 AccessShareLock\nfast a 10 5/16389 AccessShareLock\n\
         fast a 11 5/16388 AccessShareLock\nfast a 12 5/16387 AccessShareLock\n\
         fast a 13 5/16386 AccessShareLock\nfast a 14 5/16385 AccessShareLock\n\
         fast a 15 5/16401 AccessShareLock\ntable a 5/16384 AccessShareLock granted\n\
         table b 5/16384 AccessExclusiveLock awaited\ntable a 5/16400 AccessShareLock granted\nrows 18\n",
    ),
    (
        Config {
            sessions: 8,
            max_local: 1024,
            slot_groups: 1,
        },
        "session a 5\ntry a 5/16384 AccessShareLock\ntry a 5/16384 AccessShareLock\n\
         try a 5/16384 AccessShareLock session\ncommit a\nowned a 5/16384 AccessShareLock\nabort a\n\
         owned a 5/16384 AccessShareLock\nunlock a 5/16384 AccessShareLock session\n",
        "a: session 0 database 5\na: granted\na: already held\na: already held\na: committed\n\
         a: transaction 0 session 1\na: aborted\na: transaction 0 session 0\n\
         a: you don't own a lock of type AccessShareLock\n",
    ),
    (
        Config {
            sessions: 8,
            max_local: 1024,
            slot_groups: 1,
        },
        "session a 5\nsession b 5\nsession c 5\ntry a 5/16384 AccessShareLock\n\
         lock b 5/16384 AccessExclusiveLock\nlock c 5/16384 AccessShareLock\ncancel a b\ncount a 796\n\
         cancel a b\n",
        "a: session 0 database 5\nb: session 1 database 5\nc: session 2 database 5\na: granted\n\
         b: waits\nc: waits\na: asked b\nb: cancelled\nc: granted after waiting\nstrong 796 0\n\
         b isn't waiting\n",
    ),
    (
        Config {
            sessions: 1,
            max_local: 1024,
            slot_groups: 1,
        },
        "session a 5\nsession b 5\n",
        "a: session 0 database 5\nb: refused 12 no more sessions\n",
    ),
    (
        Config {
            sessions: 8,
            max_local: 2,
            slot_groups: 1,
        },
        "session a 5\ntry a 5/1 AccessShareLock\ntry a 5/2 AccessShareLock\ntry a 5/3 AccessShareLock\n\
         try a 5/1 AccessShareLock\n",
        "a: session 0 database 5\na: granted\na: granted\na: refused 3 local table full\n\
         a: already held\n",
    ),
    (
        Config {
            sessions: 8,
            max_local: 1024,
            slot_groups: 1,
        },
        "session a 5\ntry a 6/16384 AccessShareLock\nfast a 6/16384 RowShareLock\n\
         try a 0/1262 ShareLock\nhash 0/1262\ncount a 495\nlist a\n",
        "a: session 0 database 5\na: granted\na: refused 11 not eligible\na: granted\n\
         hash 1165483503 partition 15 strong 495\nstrong 495 0\ntable a 0/1262 ShareLock granted\n\
         table a 6/16384 AccessShareLock granted\nrows 2\n",
    ),
    (
        Config {
            sessions: 8,
            max_local: 1024,
            slot_groups: 1,
        },
        "session a 5\nsession b 5\ntry a 5/1259/16384/0 ExclusiveLock\n\
         try b 5/1259/16384/0 AccessShareLock\ntry b 5/1259/16384/0 RowShareLock\nlist b\n\
         unlock a 5/1259/16384/0 ExclusiveLock\ntry b 5/1259/16384/0 RowShareLock\n\
         unlock a 5/1259/16384/0 ExclusiveLock\n",
        "a: session 0 database 5\nb: session 1 database 5\na: granted\nb: granted\n\
         b: refused 1 conflict a ExclusiveLock held\ntable a 5/1259/16384/0 ExclusiveLock granted\n\
         table b 5/1259/16384/0 AccessShareLock granted\nrows 2\na: released\nb: granted\n\
         a: you don't own a lock of type ExclusiveLock\n",
    ),
    (
        Config {
            sessions: 8,
            max_local: 1024,
            slot_groups: 1,
        },
        "hash 5/1259/16384/0\n",
        "hash 1793954687 partition 15 strong 895\n",
    ),
    (
        Config {
            sessions: 8,
            max_local: 1024,
            slot_groups: 1,
        },
        "session a 5\ntry a adv/5/0/42/1 ExclusiveLock session\ntry a 5/16384 AccessShareLock session\n\
         try a adv/5/0/42/1 ExclusiveLock\nabort a\nlist a\nowned a adv/5/0/42/1 ExclusiveLock\n\
         commit a\nclose a\n",
        "a: session 0 database 5\na: granted\na: granted\na: already held\na: aborted\n\
         table a adv/5/0/42/1 ExclusiveLock granted\nrows 1\na: transaction 0 session 1\na: committed\n\
         a: closed\n",
    ),
    (
        Config {
            sessions: 8,
            max_local: 1024,
            slot_groups: 1,
        },
        "hash adv/5/0/42/1\n",
        "hash 144398250 partition 10 strong 938\n",
    ),
    (
        Config {
            sessions: 8,
            max_local: 1024,
            slot_groups: 1,
        },
        "session a 5\nfast a adv/5/0/42/1 AccessShareLock\n",
        "a: session 0 database 5\na: refused 11 not eligible\n",
    ),
    (
        Config {
            sessions: 8,
            max_local: 1024,
            slot_groups: 2,
        },
        "session a 5\ntry a 5/16384 AccessShareLock\ntry a 5/16385 AccessShareLock\nlist a\n",
        "a: session 0 database 5\na: granted\na: granted\nfast a 15 5/16384 AccessShareLock\n\
         fast a 31 5/16385 AccessShareLock\nrows 2\n",
    ),
    (
        Config {
            sessions: 8,
            max_local: 1024,
            slot_groups: 2,
        },
        "session a 5\ntry a 5/16384 AccessShareLock\ntry a 5/16386 AccessShareLock\n\
         try a 5/16388 AccessShareLock\ntry a 5/16390 AccessShareLock\ntry a 5/16392 AccessShareLock\n\
         try a 5/16394 AccessShareLock\ntry a 5/16396 AccessShareLock\ntry a 5/16398 AccessShareLock\n\
         try a 5/16400 AccessShareLock\ntry a 5/16402 AccessShareLock\ntry a 5/16404 AccessShareLock\n\
         try a 5/16406 AccessShareLock\ntry a 5/16408 AccessShareLock\ntry a 5/16410 AccessShareLock\n\
         try a 5/16412 AccessShareLock\ntry a 5/16414 AccessShareLock\ntry a 5/16416 AccessShareLock\n\
         fast a 5/16418 AccessShareLock\nfast a 5/16385 AccessShareLock\nfast a 5/16387 AccessShareLock\n\
         list a\n",
        "a: session 0 database 5\na: granted\na: granted\na: granted\na: granted\na: granted\n\
         a: granted\na: granted\na: granted\na: granted\na: granted\na: granted\na: granted\na: granted\n\
         a: granted\na: granted\na: granted\na: granted\na: refused 9 slots full\na: granted\n\
         a: granted\nfast a 0 5/16414 AccessShareLock\nfast a 1 5/16412 AccessShareLock\n\
         fast a 2 5/16410 AccessShareLock\nfast a 3 5/16408 AccessShareLock\n\
         fast a 4 5/16406 AccessShareLock\nfast a 5 5/16404 AccessShareLock\n\
         fast a 6 5/16402 AccessShareLock\nfast a 7 5/16400 AccessShareLock\n\
         fast a 8 5/16398 AccessShareLock\nfast a 9 5/16396 AccessShareLock\n\
         fast a 10 5/16394 AccessShareLock\nfast a 11 5/16392 AccessShareLock\n\
         fast a 12 5/16390 AccessShareLock\nfast a 13 5/16388 AccessShareLock\n\
         fast a 14 5/16386 AccessShareLock\nfast a 15 5/16384 AccessShareLock\n\
         fast a 30 5/16387 AccessShareLock\nfast a 31 5/16385 AccessShareLock\n\
         table a 5/16416 AccessShareLock granted\nrows 19\n",
    ),
    (
        Config {
            sessions: 8,
            max_local: 1024,
            slot_groups: 1,
        },
        "session a 5\ntry a 5/16384 AccessShareLock\nbegin a\ntry a 5/16384 AccessShareLock\n\
         try a 5/16385 ShareLock\nbegin a\ntry a 5/16386 RowShareLock\nsubcommit a\nlist a\nsubabort a\n\
         list a\nsubabort a\n",
        "a: session 0 database 5\na: granted\na: level 2\na: already held\na: granted\na: level 3\n\
         a: granted\na: level 2\nfast a 14 5/16386 RowShareLock\nfast a 15 5/16384 AccessShareLock\n\
         table a 5/16385 ShareLock granted\nrows 3\na: level 1\nfast a 15 5/16384 AccessShareLock\n\
         rows 1\na: refused 16 no nested transaction\n",
    ),
    (
        Config {
            sessions: 8,
            max_local: 1024,
            slot_groups: 1,
        },
        "session a 5\ntry a 5/16384 AccessShareLock\nbegin a\nunlock a 5/16384 AccessShareLock\n",
        "a: session 0 database 5\na: granted\na: level 2\n\
         a: you don't own a lock of type AccessShareLock\n",
    ),
    (
        Config {
            sessions: 8,
            max_local: 1024,
            slot_groups: 1,
        },
        "session a 5\nbegin a\nbegin a\nbegin a\nbegin a\nbegin a\nbegin a\nbegin a\nbegin a\nbegin a\n\
         begin a\nbegin a\nbegin a\nbegin a\nbegin a\nbegin a\nbegin a\n",
        "a: session 0 database 5\na: level 2\na: level 3\na: level 4\na: level 5\na: level 6\n\
         a: level 7\na: level 8\na: level 9\na: level 10\na: level 11\na: level 12\na: level 13\n\
         a: level 14\na: level 15\na: level 16\na: refused 15 too deep\n",
    ),
    (
        Config {
            sessions: 8,
            max_local: 1024,
            slot_groups: 1,
        },
        "session a 5\ntry a 5/1 ShareLock\ntry a 5/1 ShareLock\nunlock a 5/1 ShareLock\n\
         waiters a 5/1 ShareLock\nunlock a 5/1 ShareLock\nwaiters a 5/1 ShareLock\n",
        "a: session 0 database 5\na: granted\na: already held\na: still held\na: waiters no\n\
         a: released\na: you don't own a lock of type ShareLock\n",
    ),
    (
        Config {
            sessions: 8,
            max_local: 1024,
            slot_groups: 1,
        },
        "session a 5\nclose a\nsession a 6\n",
        "a: session 0 database 5\na: closed\na: session 1 database 6\n",
    ),
    (
        Config {
            sessions: 8,
            max_local: 1024,
            slot_groups: 1,
        },
        "session h 5\nsession b 5\nsession a 5\ntry h 5/1 AccessShareLock\n\
         lock b 5/1 AccessExclusiveLock\nlock a 5/1 AccessShareLock\ncancel h b\n",
        "h: session 0 database 5\nb: session 1 database 5\na: session 2 database 5\nh: granted\n\
         b: waits\na: waits\nh: asked b\nb: cancelled\na: granted after waiting\n",
    ),
    (
        Config {
            sessions: 8,
            max_local: 1024,
            slot_groups: 1,
        },
        "session z 5\nsession y 5\nsession x 5\ntry z 5/1 AccessExclusiveLock\nlock y 5/1 ShareLock\n\
         lock x 5/1 ShareLock\nabort z\n",
        "z: session 0 database 5\ny: session 1 database 5\nx: session 2 database 5\nz: granted\n\
         y: waits\nx: waits\nz: aborted\nx: granted after waiting\ny: granted after waiting\n",
    ),
    (
        Config {
            sessions: 8,
            max_local: 1024,
            slot_groups: 1,
        },
        "session a 5\nsession b 5\ntry a 5/1 ExclusiveLock\nlock b 5/1 ExclusiveLock\n",
        "a: session 0 database 5\nb: session 1 database 5\na: granted\nb: waits\n",
    ),
];
