//! What the commands' help says behind their options. The parser breaks no lines, so each is written
//! with its end, at 80 columns at most.

/// The help of `klsm replay`.
pub(crate) const REPLAY_HELP: &str = "\
The script comes on standard input, one row a line. The answers go to standard
output, each row's before the program waits for a further row.

Rows:
  THREAD,i,KEY,LOAD  Insert an item. The least key is the most urgent. KEY and
                     LOAD are numbers from 0 to 18446744073709551615
  THREAD,d,,         Delete an item, one of the least

Threads are numbered from 0, so THREAD has to be below THREADS, the value of
--threads. Each thread keeps K items for itself; what is more goes to a part
that all share, of which a deletion takes a candidate, but none above one of its
thread's own. Where it took a shared one, some of the least that are left there
go to its thread's own, at most as many as --refill says. A number of --refill
above K is refused, with status 2. With --balance N a thread takes over some of
what another one keeps before each N-th of its deletions: the least items, where
they are below its own and the shared ones.

Answers:
  THREAD i KEY STAMP                      The item was inserted
  THREAD d KEY STAMP load LOAD skip SKIP  This item was deleted; SKIP smaller
                                          ones live
  THREAD d none                           There was no item to delete

A STAMP is the inserting thread, a dot, and how many items that thread had
inserted before.
SKIP is at most THREADS times K, and 0 where THREADS is 1; that is proved.

The last line, and the status of the program:
  max skip SKIP bound BOUND  0  All rows are answered; the greatest SKIP, and
                                THREADS times K
  refused row ROW: WHAT      1  The row is refused; WHAT is rows, fields,
                                thread, operation, key or load
  no memory                  3  A growth of memory was refused
  read fault                 4  Reading failed
  (nothing more)             4  Writing failed

ROW counts rows and not lines: the first is 1, and empty lines are not counted.

Words that are no command are answered with a text on them, status 2.

Example:
  $ printf '1,i,3,0\\n1,i,2,0\\n1,i,9,0\\n0,i,1,0\\n1,d,,\\n' |
      klsm replay --threads 2 --k 1 --pick last
  1 i 3 1.0
  1 i 2 1.1
  1 i 9 1.2
  0 i 1 0.0
  1 d 2 1.1 load 0 skip 1
  max skip 1 bound 2";

/// The help of `klsm live`.
pub(crate) const LIVE_HELP: &str = "\
The script comes on standard input, one row a line, as for `klsm replay`. It is
read whole; then each of its threads runs its own rows, in their order, in a
thread of its own, and all at once. One line goes to standard output.

Rows:
  THREAD,i,KEY,LOAD  Insert an item. The least key is the most urgent. KEY and
                     LOAD are numbers from 0 to 18446744073709551615
  THREAD,d,,         Delete an item, one of the least

Threads are numbered from 0, so THREAD has to be below THREADS, the value of
--threads. A number of --refill above that of --k is refused, with status 2.

The line, and the status of the program:
  inserted I deleted D left N  0  All rows were run: I items were inserted, D of
                                  them deleted, and N are left
  refused row ROW: WHAT        1  The row is refused, and none is run; WHAT is
                                  rows, fields, thread, operation, key or load
  no memory                    3  A growth of memory was refused
  read fault                   4  Reading failed
  (nothing more)               4  Writing failed

ROW counts rows and not lines: the first is 1, and empty lines are not counted.

Example:
  $ printf '0,i,1,0\\n1,i,2,0\\n' | klsm live --threads 2
  inserted 2 deleted 0 left 2";

/// The help of `klsm knapsack`.
pub(crate) const KNAPSACK_HELP: &str = "\
The instance comes on standard input, and one line goes to standard output.
Workers search by branch and bound, each in a thread of its own; the answer is a
best selection whatever their order.

Rows:
  capacity,C    The first row: what a selection may weigh, 0 to 1000000000
  VALUE,WEIGHT  A thing: its value, 1 to 1000000, and its weight,
                1 to 1000000000. There are at most 32, counted from 0

The line, and the status of the program:
  value V weight W picks ..  0  The value and the weight of a best selection,
                                and its things
  refused row ROW: WHAT      1  The row is refused; WHAT is fields, items,
                                number or range
  no memory                  3  A growth of memory was refused
  read fault                 4  Reading failed
  (nothing more)             4  Writing failed

ROW counts rows and not lines: the first is 1, and empty lines are not counted.

Example:
  $ printf 'capacity,10\\n60,5\\n50,4\\n70,6\\n30,3\\n' | klsm knapsack --threads 2
  value 120 weight 10 picks 1 2";
