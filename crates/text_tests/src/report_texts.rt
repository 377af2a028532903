//! Reports worked out by hand, and the placements that stand in them alone.

/// Two shards.
pub const SHARDS: &str =
    "rmalock-place 1\nlevels 1\nlock spin\nshards 2\nbuckets 1\noverflow 0\nrank 0 at 0\nrank 1 at 0\nhome 0 0\nhome 1 0\nend\n";

/// Two ranks in one queue.
pub const DMCS: &str =
    "rmalock-place 1\nlevels 1\nlock dmcs\nshards 1\nbuckets 1\noverflow 0\nrank 0 at 0\nrank 1 at 0\nhome 0 0\nend\n";

/// One rank holds once.
pub const SPIN_REPORT: &str =
    "rmalock-report 2\nreplay spin\nranks 1 shards 1\nshard 0 updates 0 entries 1\nentry 0 0 0 hold 0 = held\nevent 2 enter-w 0\nevent 4 leave-w 0\nrank 0 done 1 of 1\nsteps 9 moved 9 waiting 0 lost 0 busy 0 finished 0\nend\n";

/// A run of six updates on one bucket and one cell.
pub const RUN_REPORT: &str =
    "rmalock-report 2\nrun spin\nranks 1 shards 1\nshard 0 updates 6 entries 6\nentry 0 0 0 put 0 1 = new\nentry 1 0 1 put 1 2 = new\nentry 2 0 2 put 2 3 = full\nentry 3 0 3 put 1 9 = was 2\nentry 4 0 4 del 0 = was 1\nentry 5 0 5 put 2 3 = new\npair 1 9\npair 2 3\nrank 0 done 6 of 6\nend\n";

/// A leaver waits for the link.
pub const DMCS_REPORT: &str =
    "rmalock-report 2\nreplay dmcs\nranks 2 shards 1\nshard 0 updates 0 entries 1\nentry 0 0 0 hold 0 = held\nqueue all settled 1 passed 1\nevent 4 join all 0\nevent 4 settle all 0\nevent 4 enter-w 0\nevent 13 join all 1\nevent 15 leave-w 0\nevent 23 pass all 1\nevent 24 enter-w 1\nrank 0 done 1 of 1\nrank 1 done 0 of 1\nsteps 25 moved 22 waiting 1 lost 2 busy 0 finished 0\nend\n";

/// The local rank enters while the remote one is in the card.
pub const ALOCK_REPORT: &str =
    "rmalock-report 2\nreplay alock\nranks 2 shards 1\nshard 0 updates 0 entries 0\nqueue local settled 1 passed 0\nqueue remote settled 0 passed 0\nevent 6 join local 0\nevent 7 announce local\nevent 8 settle local 0\nevent 8 enter-w 0\nevent 9 join remote 1\nevent 11 announce remote\nrank 0 done 0 of 1\nrank 1 done 0 of 1\nsteps 14 moved 13 waiting 1 lost 0 busy 0 finished 0\nend\n";

/// A budget of one over two nodes.
pub const TREE_REPORT: &str =
    "rmalock-report 2\nreplay mcs\nranks 4 shards 1\nshard 0 updates 0 entries 2\nentry 0 0 0 hold 0 = held\nentry 0 1 0 hold 0 = held\nqueue root settled 1 passed 1\nqueue 0 settled 1 passed 1\nqueue 1 settled 1 passed 0\nevent 4 join 0 0\nevent 10 join root 0\nevent 10 settle root 0\nevent 10 settle 0 0\nevent 10 enter-w 0\nevent 19 join 0 1\nevent 26 join 1 2\nevent 35 join root 1\nevent 38 leave-w 0\nevent 40 pass 0 1\nevent 41 enter-w 1\nevent 42 leave-w 1\nevent 46 pass root 1\nevent 51 settle 1 2\nevent 51 enter-w 2\nrank 0 done 1 of 1\nrank 1 done 1 of 1\nrank 2 done 0 of 1\nrank 3 done 0 of 0\nsteps 52 moved 50 waiting 0 lost 2 busy 0 finished 0\nend\n";

/// A put on each of two shards: the steps of each shard's events begin anew.
pub const SHARDS_REPORT: &str =
    "rmalock-report 2\nreplay spin\nranks 2 shards 2\nshard 0 updates 1 entries 1\nentry 0 0 0 put 0 1 = new\nevent 25 enter-w 0\nevent 41 leave-w 0\nshard 1 updates 1 entries 1\nentry 0 1 0 put 1 1 = new\nevent 4 enter-w 1\nevent 20 leave-w 1\nrank 0 done 1 of 1\nrank 1 done 1 of 1\nsteps 46 moved 46 waiting 0 lost 0 busy 0 finished 0\nend\n";

/// A batch without room is undone.
pub const BATCH_REPORT: &str =
    "rmalock-report 2\nreplay spin\nranks 1 shards 1\nshard 0 updates 5 entries 5\nentry 0 0 0 put 0 1 = new\nentry 1 0 1 put 0 5 = undone part 0 of 2\nentry 2 0 2 put 1 6 = full part 1 of 2\nentry 3 0 3 del 0 = was 1 part 0 of 2\nentry 4 0 4 put 1 7 = new part 1 of 2\nevent 2 enter-w 0\nevent 15 leave-w 0\nevent 22 enter-w 0\nevent 41 leave-w 0\nevent 48 enter-w 0\nevent 70 leave-w 0\nrank 0 done 5 of 5\nsteps 75 moved 75 waiting 0 lost 0 busy 0 finished 0\nend\n";

/// The greatest key and value; `add` overflows, and doesn't.
pub const GREATEST_REPORT: &str =
    "rmalock-report 2\nrun spin\nranks 1 shards 1\nshard 0 updates 3 entries 3\nentry 0 0 0 put 18446744073709551615 18446744073709551615 = new\nentry 1 0 1 add 18446744073709551615 1 = over 18446744073709551615\nentry 2 0 2 add 18446744073709551615 0 = sum 18446744073709551615\npair 18446744073709551615 18446744073709551615\nrank 0 done 3 of 3\nend\n";

/// Gets and a hold among updates that change something or nothing.
pub const LOOKS_REPORT: &str =
    "rmalock-report 2\nrun spin\nranks 1 shards 1\nshard 0 updates 5 entries 9\nentry 0 0 0 get 5 = none\nentry 0 0 1 put 5 1 = new\nentry 1 0 2 cas 5 1 2 = was 1\nentry 2 0 3 cas 5 1 3 = no 2\nentry 3 0 4 cas 6 0 0 = none\nentry 4 0 5 del 6 = none\nentry 5 0 6 get 5 = val 2\nentry 5 0 7 get 6 = none\nentry 5 0 8 hold 0 = held\npair 5 2\nrank 0 done 9 of 9\nend\n";
