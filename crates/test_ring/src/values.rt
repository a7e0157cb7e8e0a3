//! Results that no script shows: values worked out by hand, the memory of reads, and an order of a
//! report.
use crate::setting::{
    Host, Table, close, end, first_chain, in_chain, one_file, open, read, ring_of, submit,
};
use bitflags::Flags;
use fx_base::NoMemory;
use fx_chain::{Completion, LONGEST_READ, OpenGate, Request, SqeFlags, Target, check, target};
use fx_order::{Access, ChainAccess, RingSlots, Slots, is_one_order};
use fx_ring::Report;
use fx_words::{
    begin_amount, control_word, end_amount, entry_of, node_of, retire_amount, says_full, slot_word,
    takes_of,
};

#[test]
fn file_index_names_the_slot_below_it(rt: HostRuntime) {
    for (index, expected) in [
        (0, None),
        (1, Some(Target::Slot(0))),
        (4_294_967_294, Some(Target::Slot(4_294_967_293))),
        (4_294_967_295, Some(Target::Any)),
    ] {
        assert!(rt; target(index) == expected);
    }
}

#[test]
fn words_of_the_table_without_a_lock(rt: HostRuntime) {
    let last = slot_word(16_777_214, 255) + 4_294_967_295;
    let begun = control_word(1) + begin_amount();
    for (word, expected) in [
        (slot_word(0, 0), 1_099_511_627_776),
        (slot_word(256, 0), 282_574_488_338_432),
        (slot_word(256, 3), 282_587_373_240_320),
        (last, 18_446_744_073_709_551_615),
        (retire_amount(0), 4_294_967_296),
        (retire_amount(5), 4_294_967_291),
        (control_word(1), 65_537),
        (begun, 4_295_032_833),
        (begun - end_amount(1), 65_538),
    ] {
        assert!(rt; word == expected);
    }
    assert!(rt; node_of(last) == Some(16_777_214));
    assert!(rt; entry_of(last) == 255 && takes_of(last) == 4_294_967_295);
    assert!(rt; says_full(4_295_032_834, 2) && !says_full(4_295_032_834, 3));
    assert!(rt; !says_full(8_590_000_130, 2));
}

// If it fails, it severs its chain no more than a hard link alone.
#[test]
fn request_with_both_flags_is_a_hard_link(rt: HostRuntime) {
    let failed = Completion {
        place: first_chain(1),
        res: -9,
        got: Vec::new(rt.alloc()),
    };
    let mut request = close(0);
    request.flags = SqeFlags::IO_LINK.union(SqeFlags::IO_HARDLINK);
    assert!(rt; !request.severs(&failed));
}

// Creates a read of each length, from 0.
fn reads<H: Host>(rt: &H) -> Vec<Request> {
    let mut list = Vec::new(rt.alloc());
    for len in 0..LONGEST_READ + 1 {
        let request = in_chain(read(0, 0, len), len);
        list.push(request).expect(rt, "memory");
    }
    list
}

// Checks whether the completion at each position has that number of bytes, in an exact buffer.
fn has_each_length(report: &Report) -> bool {
    for (len, completion) in report.completions.iter().enumerate() {
        if len > 4096 || completion.res != len as i32 || completion.got.capacity() != len {
            return false;
        }
    }
    true
}

// A read allocates exactly the bytes that it asks for. By its contract it may fail for lack of
// memory; here none does. The built program plays scripts of every size (tests/check-limits).
#[test]
fn reads_of_each_length(rt: HostRuntime) {
    let requests = reads(&rt);
    let mut ring = ring_of(&rt, &[0]);
    let (words, baton) = (Table::Words, Table::Baton);
    for players in [(words, 1), (words, 16), (baton, 1), (baton, 16)] {
        let answer = submit(&rt, &mut ring, &requests, players, &OpenGate);
        assert!(rt; has_each_length(&answer.expect(&rt, "a report")));
    }
    end(&rt, ring);
}

// Returns an access by a chain.
fn by(chain: u32, access: Access) -> ChainAccess {
    ChainAccess { chain, access }
}

// Returns the report of requests that one worker plays on a ring with two empty slots.
fn report_of<H: Host>(rt: &H, requests: &[Request]) -> Report {
    let mut ring = ring_of(rt, &[-1, -1]);
    let players = (Table::Baton, 1);
    let answer = submit(rt, &mut ring, requests, players, &OpenGate);
    end(rt, ring);
    answer.expect(rt, "a report")
}

// Checks whether the order explains the report of requests on two empty slots.
fn is_order_of<H: Host>(
    rt: &H,
    requests: &[Request],
    report: &Report,
    order: &[ChainAccess],
) -> Result<bool, NoMemory> {
    assert!(rt; check(requests).is_ok());
    let (range, at) = ((0, 2), vec![in rt.alloc(); None; 2].expect(rt, "memory"));
    let (slots, submissions, registrations) = (Slots { range, at }, 0, 0);
    let mut empty = RingSlots {
        slots,
        submissions,
        registrations,
    };
    let catalogue = one_file(rt);
    is_one_order(rt.alloc(), &catalogue, &mut empty, requests, report, order)
}

// One worker plays a chain that opens a file at slot 0 and reads it, and then one that closes the
// slot. Without the close, the order isn't one of the report. No program here computes orders, so
// only this test sees that memory suffices for one.
#[test]
fn order_of_a_report(rt: HostRuntime) {
    let file = first_chain(1).installed(0, 0);
    let order = [
        by(1, Access::Puts(0, file, None)),
        by(1, Access::Looks(0, Some(file))),
        by(2, Access::Takes(0, Some(file))),
    ];
    let open = in_chain(open(&rt), 0);
    let requests = [open, read(0, 0, 5), close(0)];
    let report = report_of(&rt, &requests);
    for (count, is_order) in [(2, false), (3, true)] {
        let said = is_order_of(&rt, &requests, &report, &order[..count]);
        assert!(rt; said == Ok(is_order));
    }
}
