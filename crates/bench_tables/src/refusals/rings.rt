//! The calls of a ring that allocate, and that no script makes so: `fixfiles` plays the calls
//! between submissions.
use crate::Host;
use crate::refusals::{ATTEMPTS, is_accepted, print_closes, print_refused};
use bitflags::Flags;
use fx_base::{Catalogue, NoMemory};
use fx_chain::{Gate, Op, OpenGate, Place, Request, SqeFlags, Target};
use fx_ring::{OpenRing, Ring};
use fx_table::FileTable;
use std::alloc::Global;
use std::sync::Wait;
use std::sync::atomic::{AtomicU32, Ordering};

// Adds a file to a catalogue. Returns `None` if an allocation fails.
fn add(alloc: Global, catalogue: &mut Catalogue, name: &str, bytes: &[u8]) -> Option<()> {
    let name = String::from_str(alloc, name).ok()?;
    catalogue.add(name, bytes.to_vec(alloc).ok()?).ok()
}

// Creates a ring whose catalogue has `a.txt`, with the bytes `hello`, and `b.txt`, with `hi`. Its
// table has two slots: slot 0 has `a.txt` with tag 7, and slot 1 is the allocation range. Returns
// `None` if an allocation fails.
fn ring_of_two_files(alloc: Global) -> Option<Ring> {
    let mut catalogue = Catalogue::new(alloc);
    add(alloc, &mut catalogue, "a.txt", b"hello")?;
    add(alloc, &mut catalogue, "b.txt", b"hi")?;
    let mut ring = Ring::new(alloc, catalogue);
    if ring.register_tagged(alloc, &[0, -1], &[7, 0]).is_err() || ring.alloc_range(1, 1).is_err() {
        ring.abandon();
        return None;
    }
    Some(ring)
}

// Creates a chain that reads five bytes of slot 0 and closes it, and a chain that opens `b.txt` at
// any slot. Returns `None` if an allocation fails.
fn requests(alloc: Global) -> Option<Vec<Request>> {
    let (name, target) = (String::from_str(alloc, "b.txt").ok()?, Target::Any);
    let (slot, off, len) = (0, 0, 5);
    let requests = [
        Request {
            op: Op::Read { slot, off, len },
            flags: SqeFlags::FIXED_FILE.union(SqeFlags::IO_LINK),
        },
        Request {
            op: Op::Close { slot },
            flags: SqeFlags::empty(),
        },
        Request {
            op: Op::Open { name, target },
            flags: SqeFlags::empty(),
        },
    ];
    Vec::from_array(alloc, requests).ok()
}

// A gate that counts its calls.
#[derive(Drop)]
struct Calls(AtomicU32);

impl Gate for Calls {
    fn before(&self, _place: Place) {
        self.0.fetch_add(1, Ordering::SeqCst);
    }

    fn after(&self, _place: Place) {
        self.0.fetch_add(1, Ordering::SeqCst);
    }
}

// Tears the ring down, with a second attempt after an allocation failure.
fn end<R: Print>(rt: &R, alloc: Global, mut ring: Ring) {
    for _ in 0..ATTEMPTS {
        ring = match ring.tear_down(alloc) {
            Ok(closes) => return print_closes(rt, &closes),
            Err((back, NoMemory)) => {
                print_refused(rt, "tear_down", NoMemory);
                back
            }
        };
    }
    ring.abandon();
}

/// Lists the completion of the tag of a closed file.
pub(crate) fn tags<R: Print>(rt: &R, alloc: Global) -> Option<()> {
    let closes = match ring_of_two_files(alloc)?.tear_down(alloc) {
        Ok(closes) => closes,
        Err((ring, NoMemory)) => {
            ring.abandon();
            return None;
        }
    };
    for _ in 0..ATTEMPTS {
        match closes.tags(alloc) {
            Ok(tags) => {
                let _ = println!(rt; "tags: {tags:?}");
                break;
            }
            Err(fault) => print_refused(rt, "tags", fault),
        }
    }
    print_closes(rt, &closes);
    Some(())
}

/// Submits a chain that reads and closes a file, and one that opens another file, to `workers`
/// workers. If the submission is refused, no request has started.
pub(crate) fn submit<T: FileTable, H: Host>(rt: &H, alloc: Global, workers: u32) -> Option<()> {
    let requests = requests(alloc)?;
    let mut ring = ring_of_two_files(alloc)?;
    let calls = Calls(AtomicU32::new(0));
    for _ in 0..ATTEMPTS {
        let answer = ring.submit::<T, Calls>(rt, alloc, requests.as_slice(), workers, &calls);
        if is_accepted(rt, "submit", answer) {
            break;
        }
        let _ = println!(rt; "gate: {} calls", calls.0.load(Ordering::SeqCst));
    }
    end(rt, alloc, ring);
    Some(())
}

// Submits the requests on a ring whose table is open. Returns whether that was accepted.
fn submit_to<T: FileTable, R: Wait + Print>(
    rt: &R,
    alloc: Global,
    ring: &mut OpenRing<T>,
    requests: &[Request],
) -> bool {
    let answer = match ring.submit(rt, alloc, requests, &OpenGate) {
        Ok(Some(report)) => Ok(report),
        Ok(None) => {
            let _ = println!(rt; "submit_open: no room");
            return false;
        }
        Err(fault) => Err(fault),
    };
    let accepted = is_accepted(rt, "submit_open", answer);
    if !accepted {
        let _ = println!(rt; "open ring: {} slots", ring.size());
    }
    accepted
}

/// Submits the same chains on a ring whose table is open. The opening, too, has a second attempt
/// after an allocation failure.
pub(crate) fn submit_open<T: FileTable, R: Wait + Print>(rt: &R, alloc: Global) -> Option<()> {
    let requests = requests(alloc)?;
    let opened = match ring_of_two_files(alloc)?.open::<T>(alloc, 2, 1) {
        Ok(ring) => Ok(ring),
        Err((ring, NoMemory)) => {
            print_refused(rt, "submit_open", NoMemory);
            ring.open::<T>(alloc, 2, 1)
        }
    };
    match opened {
        Ok(mut ring) => {
            for _ in 0..ATTEMPTS {
                if submit_to(rt, alloc, &mut ring, requests.as_slice()) {
                    break;
                }
            }
            end(rt, alloc, ring.close());
        }
        Err((ring, NoMemory)) => end(rt, alloc, ring),
    }
    Some(())
}
