//! The requests that the gate is called for: each that is started, once before and once after, in
//! order, and no other. Which requests are started was worked out by hand.
use crate::setting::{Host, Players, TABLES, end, play, read, ring_of, submit};
use bitflags::Flags;
use fx_chain::{CutFault, CutKind, Gate, Place, Request, SqeFlags};
use fx_ring::SubmitFault;
use std::sync::atomic::{AtomicBool, AtomicU32, Ordering};

// A gate of a first submission that counts its calls for each chain, and records a call that isn't
// the next one of its chain: before the first member, after it, before the second one, and so on.
#[derive(Drop)]
struct Calls {
    chains: Vec<AtomicU32>,
    is_wrong: AtomicBool,
}

impl Calls {
    // Creates a gate of a submission of `chains` chains.
    fn new<H: Host>(rt: &H, chains: usize) -> Calls {
        let mut counts = Vec::new(rt.alloc());
        for _ in 0..chains {
            counts.push(AtomicU32::new(0)).expect(rt, "memory");
        }
        Calls {
            chains: counts,
            is_wrong: AtomicBool::new(false),
        }
    }

    // Records a call for a chain that was called for `others` times before.
    fn note(&self, place: Place, others: u32) {
        if let Some(chain) = self.chains.get(place.chain.wrapping_sub(1) as usize) {
            if chain.fetch_add(1, Ordering::SeqCst) == others && place.submission == 1 {
                return;
            }
        }
        self.is_wrong.store(true, Ordering::SeqCst);
    }

    // Checks whether exactly the first `started` members of each chain were started: the gate was
    // called once before each of them and once after it, in order.
    fn were_started(&self, started: &[u32]) -> bool {
        if self.chains.len() != started.len() || self.is_wrong.load(Ordering::SeqCst) {
            return false;
        }
        for (i, chain) in self.chains.iter().enumerate() {
            if chain.load(Ordering::SeqCst) != started[i].wrapping_mul(2) {
                return false;
            }
        }
        true
    }
}

impl Gate for Calls {
    fn before(&self, place: Place) {
        self.note(place, place.member.wrapping_mul(2).wrapping_sub(2));
    }

    fn after(&self, place: Place) {
        self.note(place, place.member.wrapping_mul(2).wrapping_sub(1));
    }
}

// Scripts with one submission, or with none that is accepted, each with the number of started
// members of each chain. The chains of the first script are at slots of their own.
const ROWS: [(&str, &[u32]); 4] = [
    (
        "file a.txt 68656c6c6f\nregister -1,0,-1,0,-1,-1,0\n\
            open a.txt at 0 link\nread 0 0 5 link\nclose 0\n\
            read 1 0 6 link\nclose 1\n\
            open a.txt at 2 link\nclose 2 link\nclose 2 link\nread 2 0 1 link\nclose 2\n\
            read 3 0 6 hardlink\nclose 3\n\
            close 4 hardlink\nread 4 0 1 link\nclose 4\n\
            close 5 link\nclose 5 hardlink\nclose 5\n\
            update 6 9 link\nclose 6\n\
            open c.txt at 6 link\nclose 6 link\nclose 6\n\
            read 6 0 1\nsubmit\n",
        &[3, 1, 3, 2, 2, 1, 1, 1, 1],
    ),
    (
        "file a.txt 68656c6c6f\nopen a.txt at 0\nopen a.txt any\nread 0 0 1\nclose 0\nupdate 0 -1\n\
            submit\n",
        &[1, 1, 1, 1, 1],
    ),
    ("sparse 1\nsubmit\n", &[]),
    ("close 0\nread 0 0 4097\nsubmit\n", &[]),
];

// Checks whether a play of the script starts exactly these members of its chains.
fn starts<H: Host>(rt: &H, script: &str, players: Players, started: &[u32]) -> bool {
    let calls = Calls::new(rt, started.len());
    play(rt, script.as_bytes(), players, &calls);
    calls.were_started(started)
}

#[test]
fn gate_is_called_for_what_is_started(rt: HostRuntime) {
    for (script, started) in &ROWS {
        for table in TABLES {
            for workers in [1, 2, 3, 16] {
                assert!(rt; starts(&rt, script, (table, workers), started));
            }
        }
    }
}

// Submits requests to a ring of one file. Checks whether that is refused for this fault, and starts
// none of them.
fn is_refused<H: Host>(rt: &H, requests: &[Request], players: Players, fault: SubmitFault) -> bool {
    let calls = Calls::new(rt, 0);
    let mut ring = ring_of(rt, &[0]);
    let answer = submit(rt, &mut ring, requests, players, &calls);
    end(rt, ring);
    answer.err() == Some(fault) && calls.were_started(&[])
}

// Submissions that are refused, and that no script can express.
#[test]
fn refused_submissions_start_no_request(rt: HostRuntime) {
    let (op, flags) = (read(0, 0, 5).op, SqeFlags::empty());
    let requests = [read(0, 0, 5), Request { op, flags }];
    let (at, kind) = (2, CutKind::BadFlags);
    let bad_flags = SubmitFault::Cut(CutFault { at, kind });
    for (count, workers, fault) in [
        (1, 0, SubmitFault::Workers),
        (1, 17, SubmitFault::Workers),
        (2, 4_294_967_295, SubmitFault::Workers),
        (2, 1, bad_flags),
        (2, 16, bad_flags),
    ] {
        for table in TABLES {
            let (requests, players) = (&requests[..count], (table, workers));
            assert!(rt; is_refused(&rt, requests, players, fault));
        }
    }
}
