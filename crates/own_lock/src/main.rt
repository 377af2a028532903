//! Two ranks step under a lock of one's own, the ticket lock of `ticket_lock`: it is a shard's core like the seven that have names.
//! `docs/YOUR-OWN-LOCK.md` walks through both crates.
#![tactic(auto)]

use rl_machine::Machine;
use rl_ops::read_ops;
use rl_place::read_place;
use rl_rank::Whole;
use rl_work::LockedWork;
use ticket_lock::Ticket;

/// Each block under a ticket lock.
type TicketCore = Whole<Ticket, LockedWork>;

/// Two ranks on two nodes. The lock that it names isn't made: this program has its own.
const PLACE: &[u8] =
    b"rmalock-place 1\nlevels 1\nlock spin\nshards 1\nbuckets 1\noverflow 0\nrank 0 at 0\nrank 1 at 1\nhome 0 0\nend\n";

const CALLS: &[u8] = b"rmalock-calls 1\n0 hold 0\n1 hold 0\nend\n";

/// Lets the ranks make five steps each in turn, and prints how each step went, and then what happened.
fn main(rt: HostRuntime) -> anyhow::Result<()> {
    let place = read_place(rt.alloc(), PLACE)?;
    let ranks = place.paths.len() as u32;
    let ops = read_ops(rt.alloc(), ranks, place.geom.shards, CALLS)?;
    let shape = place.shape(rt.alloc())?;
    let homes = place.homes.as_slice();
    let mut machine: Machine<TicketCore> = Machine::new(
        rt.alloc(),
        &shape,
        place.knobs(),
        place.geom,
        homes,
        ops,
    )?;
    for step in 0..18u32 {
        let rank = step / 5 % ranks;
        let answer = machine.step(rank)?;
        println!(rt; "step {step}: rank {rank}, {answer:?}")?;
    }
    let shard = machine.place(0);
    for (step, event) in machine.events(shard) {
        println!(rt; "step {step}: {event:?}")?;
    }
    Ok(())
}
