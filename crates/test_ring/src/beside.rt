//! Threads that really run at the same time: a gate stops chains until others have reached the same
//! point. No clause says that two threads ran, so a player of all chains on one thread would be
//! proved as well.
use crate::setting::{Host, Players, TABLES, Table, play};
use fx_chain::{Gate, Place};
use std::sync::atomic::{AtomicBool, AtomicU32, Ordering};
use std::thread;

// The number of times that a chain checks whether others have come, and yields its thread: some
// seconds, since a busy machine may run the others late.
const MOST_TURNS: u32 = 10_000_000;

// The same where the others can't come. On a busy machine one turn takes a millisecond and more.
const TURNS_IN_VAIN: u32 = 2_000;

// Waits until a count reaches `least`, for `turns` turns. After one chain has waited in vain, which
// is recorded, no other chain waits.
fn wait_for(count: &AtomicU32, least: u32, turns: u32, is_late: &AtomicBool) {
    for _ in 0..turns {
        if count.load(Ordering::SeqCst) >= least || is_late.load(Ordering::SeqCst) {
            return;
        }
        thread::yield_now();
    }
    is_late.store(true, Ordering::SeqCst);
}

// A gate at which members of chains wait for others. The first `held` chains wait before each
// member until `chains` members have come. If no chain is held so, the second chain waits until the
// first one's first member has completed, and the first chain's second member until the second
// chain has completed.
#[derive(Drop)]
struct Meeting {
    held: u32,
    chains: u32,
    turns: u32,
    came: AtomicU32,
    left: AtomicU32,
    is_late: AtomicBool,
}

impl Meeting {
    // Creates a gate that nobody has reached, at which a chain waits for `turns` turns at most.
    fn new(held: u32, chains: u32, turns: u32) -> Meeting {
        Meeting {
            held,
            chains,
            turns,
            came: AtomicU32::new(0),
            left: AtomicU32::new(0),
            is_late: AtomicBool::new(false),
        }
    }
}

impl Gate for Meeting {
    fn before(&self, place: Place) {
        self.came.fetch_add(1, Ordering::SeqCst);
        let (count, least) = match (self.held, place.chain, place.member) {
            (0, 2, 1) => (&self.left, 1),
            (0, 1, 2) => (&self.left, 2),
            (held, chain, _) if chain <= held => (&self.came, self.chains),
            _ => return,
        };
        wait_for(count, least, self.turns, &self.is_late);
    }

    fn after(&self, _place: Place) {
        self.left.fetch_add(1, Ordering::SeqCst);
    }
}

// Checks whether the chains of a script meet at a gate, and whether the gate is called once before
// each member and once after it.
fn meet<H: Host>(rt: &H, script: &[u8], players: Players, meeting: &Meeting) -> bool {
    let chains = meeting.chains;
    play(rt, script, players, meeting);
    let (came, left) = (&meeting.came, &meeting.left);
    came.load(Ordering::SeqCst) == chains
        && left.load(Ordering::SeqCst) == chains
        && !meeting.is_late.load(Ordering::SeqCst)
}

// A script of 16 chains. Without its first lines it has fewer of them.
const CLOSES: &[u8] = b"close 0\nclose 0\nclose 0\nclose 0\nclose 0\nclose 0\nclose 0\nclose 0\n\
      close 0\nclose 0\nclose 0\nclose 0\nclose 0\nclose 0\nclose 0\nclose 0\nsubmit\n";

// As many chains meet as there are workers.
#[test]
fn each_number_of_workers_play_beside_each_other(rt: HostRuntime) {
    for workers in 1..17 {
        let script = &CLOSES[8 * (16 - workers as usize)..];
        for table in TABLES {
            let meeting = Meeting::new(workers, workers, MOST_TURNS);
            assert!(rt; meet(&rt, script, (table, workers), &meeting));
        }
    }
}

// Of two workers, one is held at the first of three chains. On the lock-free table the other one
// plays the next chains. On the table guarded by one word the passes take turns, and the third
// chain belongs to the pass that waits.
#[test]
fn submit_shares_out_chains_itself(rt: HostRuntime) {
    let script = &CLOSES[8 * 13..];
    let free = Meeting::new(1, 3, MOST_TURNS);
    assert!(rt; meet(&rt, script, (Table::Words, 2), &free));
    let guarded = Meeting::new(1, 3, TURNS_IN_VAIN);
    assert!(rt; !meet(&rt, script, (Table::Baton, 2), &guarded));
}

#[test]
fn an_update_between_an_open_and_its_read(rt: HostRuntime) {
    let script =
        "file a.txt 68656c6c6f\nfile b.txt 6869\nsparse 1\nopen a.txt at 0 link\nread 0 0 5\n\
                  update 0 1\nsubmit\n";
    let expected = b"sparse 0\n1.1.1 0\n1.1.2 2 6869\n1.2.1 1\nclosed 1.1.1.0 a.txt\nteardown\n\
                   closed 1.2.1.0 b.txt\n";
    for table in TABLES {
        let gate = Meeting::new(0, 2, MOST_TURNS);
        let text = play(&rt, script.as_bytes(), (table, 2), &gate);
        assert!(rt; text.as_slice() == expected.as_slice() && !gate.is_late.load(Ordering::SeqCst));
    }
}
