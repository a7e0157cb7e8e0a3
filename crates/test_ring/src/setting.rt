//! The values that the tests share: requests, rings and players. Memory is ample: a test fails if
//! an allocation fails.
ghost use Rattle.std.specs.Prelude.{◌≡◌, codes};
ghost use Rattle.fx_chain.specs.Operation.{Opens, Reads, Closes, operation_of};
ghost use Rattle.fx_chain.specs.declared.request.Target.TheVariants.{Slot};

use bitflags::Flags;
use fx_base::Catalogue;
use fx_baton::BatonTable;
use fx_chain::{Gate, Op, Place, Request, SqeFlags, Target};
use fx_counted::CountedTable;
use fx_ring::{Report, Ring, SubmitFault};
use fx_script::run;
use std::process::Abort;
use std::sync::Wait;
use std::thread::Threads;

/// A runtime for tests.
pub trait Host: Threads + Wait + Abort + AllocGlobal + Sync {}

impl<R: Threads + Wait + Abort + AllocGlobal + Sync> Host for R {}

/// Creates an open of `a.txt` at slot 0.
pub fn open<H: Host>(rt: &H) -> Request
    ensures { operation_of result.op ≡ Opens (codes "a.txt") (Slot 0) }
{
    let name = String::from_str(rt.alloc(), "a.txt").expect(rt, "memory");
    let (target, flags) = (Target::Slot(0), SqeFlags::empty());
    let op = Op::Open { name, target };
    Request { op, flags }
}

/// Creates a read of `len` bytes from byte `off` on.
pub fn read(slot: u32, off: u32, len: u32) -> Request
    ensures { operation_of result.op ≡ Reads slot off len }
{
    let (op, flags) = (Op::Read { slot, off, len }, SqeFlags::FIXED_FILE);
    Request { op, flags }
}

/// Creates a close of a slot.
pub fn close(slot: u32) -> Request
    ensures { operation_of result.op ≡ Closes slot }
{
    let (op, flags) = (Op::Close { slot }, SqeFlags::empty());
    Request { op, flags }
}

/// Links the request at position `at` of a submission, from 0, into chains of 16: each but the last
/// of a chain is linked with the next one.
pub fn in_chain(mut request: Request, at: u32) -> Request
    ensures { result.op ≡ request.op }
{
    if at % 16 < 15 {
        request.flags = request.flags.union(SqeFlags::IO_LINK);
    }
    request
}

/// Returns the place of a member of the first chain of the first submission.
pub fn first_chain(member: u32) -> Place {
    Place {
        submission: 1,
        chain: 1,
        member,
    }
}

/// The table that the workers share.
#[derive(Clone, Copy)]
pub enum Table {
    /// The lock-free table, of packed words.
    Words,
    /// The table guarded by one word.
    Baton,
}

/// Both of them.
pub const TABLES: [Table; 2] = [Table::Words, Table::Baton];

/// The players of a submission: a table, and a number of workers.
pub type Players = (Table, u32);

/// Creates a catalogue with only `a.txt`, a file of 4,096 bytes.
pub fn one_file<H: Host>(rt: &H) -> Catalogue {
    let alloc = rt.alloc();
    let mut catalogue = Catalogue::new(alloc);
    let name = String::from_str(alloc, "a.txt").expect(rt, "memory");
    let bytes = vec![in alloc; 7; 4096].expect(rt, "memory");
    assert!(rt; catalogue.add(name, bytes).is_ok());
    catalogue
}

/// Creates a ring with this catalogue and a table of this list of entries.
pub fn ring_of<H: Host>(rt: &H, list: &[i32]) -> Ring {
    let mut ring = Ring::new(rt.alloc(), one_file(rt));
    assert!(rt; ring.register(rt.alloc(), list).is_ok());
    ring
}

/// Submits requests.
pub fn submit<H: Host, G: Gate>(
    rt: &H,
    ring: &mut Ring,
    requests: &[Request],
    players: Players,
    gate: &G,
) -> Result<Report, SubmitFault> {
    let (alloc, (table, workers)) = (rt.alloc(), players);
    match table {
        Table::Words => ring.submit::<CountedTable, G>(rt, alloc, requests, workers, gate),
        Table::Baton => ring.submit::<BatonTable, G>(rt, alloc, requests, workers, gate),
    }
}

/// Tears a ring down; memory for its list suffices.
pub fn end<H: Host>(rt: &H, ring: Ring) {
    match ring.tear_down(rt.alloc()) {
        Ok(closes) => assert!(rt; closes.tags(rt.alloc()).is_ok()),
        Err(_refused) => panic!(rt; "a list of closes"),
    }
}

/// Plays a script to its end, and returns what it prints.
pub fn play<H: Host, G: Gate>(rt: &H, script: &[u8], players: Players, gate: &G) -> Vec<u8> {
    let (alloc, (table, workers)) = (rt.alloc(), players);
    assert!(rt; 1 <= workers && workers <= 16);
    let mut reader = script;
    let mut text = Vec::new(alloc);
    let (input, output) = (&mut reader, &mut text);
    let ended = match table {
        Table::Words => run::<CountedTable, _, _, _>(rt, alloc, workers, gate, input, output),
        Table::Baton => run::<BatonTable, _, _, _>(rt, alloc, workers, gate, input, output),
    };
    assert!(rt; ended.is_ok());
    text
}
