//! Worked schedules as tables: small ones over each lock, with their answers and events worked out by hand.
//!
//! Each row is a line: the lock, as lines of a placement; the nodes of the ranks, by their digits; the calls, as lines of a calls file behind its first
//! word; the ranks that make a step each, by their digits; and what these steps tell, by the signs of `signs`. Parts end with `|`, and lines of a
//! part with `;`. A line that begins with `#` says what the rows behind it show.

use std::alloc::{AllocError as OutOfMemory, Global};

/// The spin lock.
pub(crate) const SPIN: &str = "
# One rank alone, to its end and past it; no calls, or no turns; and two calls.
spin|0|1;0 hold 0|000000000|m m m+0 m m*0-0 m m m m
spin|0|1;0 hold 0|00000000000000|m m m+0 m m*0-0 m m m m f f f f f
spin|0|1||
spin|0|1|00|f f
spin|0|1;0 hold 0;0 hold 0|000000000000000000|m m m+0 m m*0-0 m m m m m m m+0 m m*0-0 m m m m
# Two ranks: a card that is busy, a compare that is lost, one behind the other.
spin|00|1;0 hold 0;1 hold 0|0001|m m m+0 b0.0
spin|00|1;0 hold 0;1 hold 0|000011111|m m m+0 m m l0.1 m m l0.1
spin|00|1;0 hold 0;1 hold 0|1111000|m m m+1 m m l0.2 m
spin|00|1;0 hold 0;1 hold 0|0011001|m m b0.0 b0.0 m+0 m m
spin|00|1;0 hold 0;1 hold 0|000000000111111111|m m m+0 m m*0-0 m m m m m m m+1 m m*1-1 m m m m
spin|00|1;0 hold 0;1 hold 0|111111111000000000|m m m+1 m m*1-1 m m m m m m m+0 m m*0-0 m m m m
spin|00|1;0 hold 0;1 hold 0|0101010101|m b0.0 m b0.0 m+0 b0.0 m m m*0-0 l0.1
spin|00|1;0 hold 0;1 hold 0|0000011010000111|m m m+0 m m*0-0 m l0.1 b0.1 m m m m m m m m+1
spin|00|1;0 hold 0;1 hold 0|00000000101111|m m m+0 m m*0-0 m m m b0.0 m m m m+1 m
# Of two ranks one has no calls.
spin|00|1;0 hold 0|0101|m f m f
spin|00|1;1 hold 0|0011111111110|f f m m m+1 m m*1-1 m m m m f f
# Three ranks.
spin|000|1;0 hold 0;1 hold 0;2 hold 0|012012012|m b0.0 b0.0 m b0.0 b0.0 m+0 b0.0 b0.0
spin|000|1;0 hold 0;1 hold 0;2 hold 0|0000111222|m m m+0 m m l0.1 m m l0.1 m
spin|000|1;0 hold 0;1 hold 0;2 hold 0|2222000|m m m+2 m m l0.3 m
spin|000|1;0 hold 0;1 hold 0;2 hold 0|201|m b0.2 b0.2
# A put into an empty bucket touches what the lock guards with each atom between: it loads the count and the bucket, and stores the six words
# of its entry, three of the bucket and the count.
spin|0|1;0 put 0 7|000000000000000000000|m m m+0 m m*0 m*0 m!0 m!0 m!0 m!0 m!0 m!0 m!0 m!0 m!0 m!0-0 m m m m f
# A put, a batch that is undone, since its second put finds no room, and one that is done. An undone batch stores its twelve words of the journal
# and the count, and nothing else.
spin|0|2;0 put 0 1;0 batch 2;0 put 0 5;0 put 1 6;0 batch 2;0 del 0;0 put 1 7|0000000000000000000000000000000000000000000000000000000000000000000000000000|m m m+0 m m*0 m*0 m!0 m!0 m!0 m!0 m!0 m!0 m!0 m!0 m!0 m!0-0 m m m m m m m+0 m m*0 m*0 m*0 m*0 m*0 m!0 m!0 m!0 m!0 m!0 m!0 m!0 m!0 m!0 m!0 m!0 m!0 m!0-0 m m m m m m m+0 m m*0 m*0 m*0 m*0 m!0 m!0 m!0 m!0 m!0 m!0 m!0 m!0 m!0 m!0 m!0 m!0 m!0 m!0 m!0 m!0 m!0-0 m m m m f
";

/// One queue of all ranks. Behind the volume of four words stand the tail, word 6, and then the next word and the status word of each rank: words 7 and 8,
/// 9 and 10.
pub(crate) const QUEUES: &str = "
# A rank alone.
dmcs|0|1;0 hold 0|0000000000000|m m m m mj0.0s0.0+0 m m*0-0 m m m m m f
# The leaver finds the link, and the one that it passes to has waited.
dmcs|00|1;0 hold 0;1 hold 0|000000111111111110001|m m m m mj0.0s0.0+0 m m m m l0.1 m m m mj0.1 m m w10.0 m*0-0 m mp0.1 m+1
# Two joiners meet at the card of the tail.
dmcs|00|1;0 hold 0;1 hold 0|0001110|m m m m m b0.0 m
";

/// The same, and a tree: through these threads are led, too.
pub(crate) const LED: &str = "
spin|00|1;0 hold 0;1 hold 0|001|m m b0.0
spin|00|1;0 hold 0;1 hold 0|0000111|m m m+0 m m l0.1 m
# The leaver finds no link, loses its compare-and-swap and waits.
dmcs|00|1;0 hold 0;1 hold 0|0000001111111110000001001|m m m m mj0.0s0.0+0 m m m m l0.1 m m m mj0.1 m m*0-0 m m l1.2 m w7.0 m m mp0.1 m+1
# Queue 0 is the root's, queues 1 and 2 are those of the two nodes: a node's budget of 1 is used up, and the root passes on.
mcs;budget 1|0011|1;0 hold 0;1 hold 0;2 hold 0|0000000000001111111111222222222222222200011111111112|m m m m mj1.0 m m m m m mj0.1s0.1s1.0+0 m m m m l0.1 m m m mj1.1 m m m m m m mj2.2 m m m m l0.2 m m m mj0.2 m m m*0-0 m mp1.1 m+1 m*1-1 m m m mp0.2 m m m m ms2.2+2
";

/// Two cohorts, a rank at home and one elsewhere. Words 6, 7 and 8 of the window are the tails of the local and of the remote queue and the victim.
pub(crate) const COHORTS: &str = "
# The remote rank stops in the card, and the local one does its whole call.
alock;budget 1 1|01|1;0 hold 0;1 hold 0|11100000000|m m m m m mj0.0 ma1 ms0.0+0 m*0-0 m m
";

/// The same: through these threads are led, too.
pub(crate) const COHORTS_LED: &str = "
# The local rank enters while the remote one has loaded its tail in the card.
alock;budget 1 1|01|1;0 hold 0;1 hold 0|11110000011111|m m m m m m mj0.0 ma1 ms0.0+0 mj1.1 m ma2 m w8.2
# Both announce themselves: who was the victim last waits.
alock;budget 1 1|01|1;0 hold 0;1 hold 0|000111111010011|m m mj0.0 m m m m mj1.1 m ma1 ma2 m ms0.0+0 m w8.2
# With budgets of 0 each head settles anew.
alock;budget 0 0|00|1;0 hold 0;1 hold 0|0000011111000111|m m mj0.0 ma1 ms0.0+0 m m l0.1 mj0.1 m m*0-0 m m m ma1 ms0.1+1
";

/// Three local ranks and a remote one, after whose announcement two local ones enter, which is the bound: the local budget and once more.
pub(crate) const BUDGET_LED: &str =
    "alock;budget 1 1|0001|1;0 hold 0;1 hold 0;2 hold 0;3 hold 0|000033333330011111222220001111222233|m m mj0.0 ma1 m m m m mj1.3 m ma2 m ms0.0+0 m m l0.1 mj0.1 m m m l0.2 mj0.2 m m*0-0 m mp0.1 m+1 m*1-1 m m m ma1 m w8.1 m ms1.3+3";

/// Readers beside each other, and a writer that waits for what they have left behind.
pub(crate) const READERS: &str = "
# Neither waits for the other, and each finishes.
rw;budget 1;writers 1;readers 1000;group 32|00|1;0 get 0;1 get 0|0000011111111110000001|m m m<0 m m*0 m m m<1 m m*1 m*1>1 m m m m m*0>0 m m m m f f
# Two gets come and go, and the third finds the counter full: it has swapped the depart word to 0 and not yet taken the two off the arrive word, when
# the writer puts its mark up. So the writer waits until they are off. Behind the volume stand two tails, the next and the status word of the node
# and of two ranks, then the arrive word and the depart word, word 15.
rw;budget 1;writers 1;readers 2;group 32|00|1;0 get 0;0 get 0;0 get 0;1 hold 0|000000000000000000000000000000000111111111111111111000011|m m m<0 m m*0 m*0>0 m m m m m m m<0 m m*0 m*0>0 m m m m m m m m m m m m m m m m m m m m m mj1.1 m m m m m mj0.1 m m m m m m w15.0 m m m m m ms0.1s1.1+1
";

/// Readers through which threads are led, too: between writers, and two beside each other.
pub(crate) const READERS_LED: &str = "
# Queue 0 is the root's, queues 1 to 3 are those of the nodes. Rank 1 waits at the root for rank 0, a reader watches the root's tail, and the next
# writer finds it inside. Behind the volume of four words stand four tails, that of the root first, word 6; a next word and a status word for each
# of three nodes and four ranks; and the counter's arrive word and its depart word, word 25.
rw;budget 1;writers 1;readers 1000;group 32|0120|1;0 hold 0;1 hold 0;2 hold 0;3 get 0|0000000000000000001111111111111111222222222222222233333333333000000000111111111111111111333332222222|m m m m mj1.0 m m m m m mj0.1 m m m m m m ms0.1s1.0+0 m m m m mj2.1 m m m m l0.2 m m m mj0.2 m m m m m m mj3.2 m m m m l0.3 m m m mj0.3 m m m m m m m m m m m m w6.4 m*0-0 m m m mp0.2 m m m m ms2.1+1 m*1-1 m m m m m m m m m m m m m m m m m m m m<3 m m m m m m m w25.0
# Two readers beside each other.
rw;budget 1;writers 1;readers 1000;group 32|00|1;0 get 0;1 get 0|00000111111111100000|m m m<0 m m*0 m m m<1 m m*1 m*1>1 m m m m m*0>0 m m m m
";

/// A hold beside optimistic readers.
pub(crate) const WAYS: &str = "
# Under a version a hold is done by ALock, and leaves the version alone.
seq;budget 1 1|0|1;0 hold 0|000000000|m m mj0.0 ma1 ms0.0+0 m*0-0 m m f
";

/// An optimistic reader, and flat combining: through these threads are led, too.
pub(crate) const WAYS_LED: &str = "
# A get looks at an even version while a writer is about to write, finds another afterwards and has lost, waits while the version is odd, and reads what
# was written. It finds version 0, the count and the bucket, which it doesn't touch by its lock; the writer enters, and touches all of the table with
# each atom but those on the version, behind the last of which it leaves; the get has lost, waits since the version is 1, and then reads all. The
# version is word 19: behind six words of the table, six of the journal, and the seven of ALock.
seq;budget 1 1|00|1;0 put 0 7;1 get 0|111000000000110000000000000111111|m m m m m mj0.0 ma1 ms0.0+0 m*0 m*0 m m l0.1 w19.1 m!0 m!0 m!0 m!0 m!0 m!0 m!0 m!0 m!0 m!0 m-0 m m m m m m m m
# Both ranks post their calls; the first gets the lock and does both; the second collects its answer. What the steps of the first tell, behind the six
# of the other's post: its own post, the way in, its flag, the count; its put, by a copy, the bucket, the entry, the bucket's words and the count, the
# answer and the flag; the other's get, by a copy and three words; its own answer. Who does a call touches for it. And those of the other: the way in,
# its flag, its answer, the way out.
combine;budget 1 1|00|1;0 put 0 1;1 get 0|11111100000000000000000000000000000000000000000000000000000111111111111|m m m m m m m m m m m m m m mj0.0 ma1 ms0.0+0 m m*0 m m m m m m m*0 m!0 m!0 m!0 m!0 m!0 m!0 m!0 m!0 m!0 m!0 m m m m m m m m m m m*0 m*0 m*0 m m m m m m m m-0 m m m m mj0.1 ma1 ms0.1+1 m m m m m-1 m m
";

/// Rank 0 goes first.
pub(crate) const FIRST_LED: &str = "spin|00|1;0 put 0 1;1 get 0|000|m m m+0";

/// Rank 1 goes first.
pub(crate) const SECOND_LED: &str = "spin|00|1;0 put 0 1;1 get 0|111|m m m+1";
/// Whether a line of a table is a row.
pub(crate) fn is_row(line: &str) -> bool {
    !line.is_empty() && !line.starts_with("#")
}

/// A part of a row, by its number.
fn part(row: &str, number: usize) -> &str {
    row.split('|').nth(number).unwrap_or("")
}

/// The ranks that make the steps of a row.
pub(crate) fn ranks_of(row: &str) -> &str {
    part(row, 3)
}

/// What the steps of a row tell.
pub(crate) fn told_of(row: &str) -> &str {
    part(row, 4)
}

/// The calls of a row.
pub(crate) fn calls_of(alloc: Global, row: &str) -> Result<String, OutOfMemory> {
    let lines = part(row, 2).replace(alloc, ";", "\n")?;
    format!(in alloc; "rmalock-calls {lines}\nend\n")
}

/// The placement of a row: one shard on node 0, whose table has room for one key.
pub(crate) fn place_of(alloc: Global, row: &str) -> Result<String, OutOfMemory> {
    one_shard(alloc, part(row, 0), "buckets 1\noverflow 0", part(row, 1))
}

/// A placement with this lock, of one shard with so many buckets and cells on node 0, and ranks on these nodes.
pub(crate) fn one_shard(
    alloc: Global,
    lock: &str,
    size: &str,
    nodes: &str,
) -> Result<String, OutOfMemory> {
    let lock = lock.replace(alloc, ";", "\n")?;
    let mut place = format!(in alloc;
        "rmalock-place 1\nlevels 1\nlock {lock}\nshards 1\n{size}\n"
    )?;
    put_ranks(alloc, &mut place, nodes)?;
    place.push_str("home 0 0\nend\n")?;
    Ok(place)
}

/// The lines of the ranks on these nodes.
fn put_ranks(alloc: Global, place: &mut String, nodes: &str) -> Result<(), OutOfMemory> {
    for (rank, node) in nodes.as_bytes().iter().enumerate() {
        let node = node.saturating_sub(b'0');
        place.push_str(&format!(in alloc; "rank {rank} at {node}\n")?)?;
    }
    Ok(())
}
