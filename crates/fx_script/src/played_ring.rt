//! The ring of a play: the table may stay open between submissions that one worker plays one after
//! another.
ghost use Rattle.std.specs.Prelude.{◌≡◌, ◌≤◌};
ghost use Rattle.fx_script.specs.Words.{IfOk, string_bytes, MatchOption, CHAIN_NUMBERS, MAX_CHAINS, ring_of, instruction_of};
ghost use Rattle.fx_script.specs.Play.{Prints};
ghost use Rattle.fx_script.specs.PlayedRing.{ring_played};

use crate::player::Setting;
use crate::prints::{answer_text, command_text};
use fx_base::NoMemory;
use fx_chain::{Gate, Request, check};
use fx_language::Command;
use fx_ring::{OpenRing, Ring};
use fx_table::{CHAIN_NUMBERS, FileTable, MAX_CHAINS};
use std::sync::Wait;
use std::thread::Threads;

// The number of chains that a table is opened for, and the greatest number of files that each may
// install.
#[derive(Clone, Copy, Drop)]
struct Needs {
    chains: u32,
    most: u32,
    ghost few_chains: { chains ≤ MAX_CHAINS },
    ghost few_files: { most ≤ CHAIN_NUMBERS },
}

impl Needs {
    // Returns the needs of both together, or `None` if they are more chains than a table has.
    fn with(self, other: Needs) -> Option<Needs> {
        let chains = self.chains + other.chains;
        if chains > MAX_CHAINS {
            return None;
        }
        Some(Needs {
            chains,
            most: self.most.max(other.most),
        })
    }

    // Returns the number of file numbers of a table with `slots` slots that is opened for them.
    fn numbers(self, slots: u32) -> u64 {
        u64::from(slots) + u64::from(self.chains) * u64::from(self.most)
    }
}

// Returns the needs of a submission's chains; a refused submission has none. Each counts as at
// least one chain, so that at most as many submissions are considered together as a table has
// chains.
fn needs_of_submission(requests: &[Request]) -> Needs {
    let mut chains = 1;
    let mut most = 0;
    if check(requests).is_ok() {
        let mut installs = 0;
        for (i, request) in requests.iter().enumerate() {
            let own = request.installs().min(CHAIN_NUMBERS as usize) as u32;
            installs = CHAIN_NUMBERS.min(installs + own);
            most = most.max(installs);
            if !request.links() && i + 1 < requests.len() {
                chains = MAX_CHAINS.min(chains + 1);
                installs = 0;
            }
        }
    }
    Needs { chains, most }
}

// Returns the joint needs of the submissions that `commands` begins with: of as many as need no
// more numbers together, on a table of `slots` slots, than each on its own.
fn needs_together(commands: &[Command], slots: u32) -> Needs {
    let mut needs = Needs { chains: 0, most: 0 };
    let mut apart: u64 = 0;
    for command in commands {
        let Command::Submit(requests) = command else {
            break;
        };
        let own = needs_of_submission(requests.as_slice());
        let Some(together) = needs.with(own) else {
            break;
        };
        apart = apart.saturating_add(own.numbers(slots));
        if together.numbers(slots) > apart {
            break;
        }
        needs = together;
    }
    needs
}

/// The ring of a play, with an open table of type `O` or without one. It must be consumed, as the
/// ring must.
pub enum PlayedRing<O> {
    /// The table is closed.
    Closed(Ring),
    /// The table is open, for one worker.
    Open(O),
}

impl<T: FileTable> PlayedRing<OpenRing<T>> {
    /// Closes the table if it is open, and returns the ring.
    pub fn closed(self) -> Ring
        ensures { ring_of result ≡ ring_of (ring_played self) }
    {
        match self {
            PlayedRing::Closed(ring) => ring,
            PlayedRing::Open(opened) => opened.close(),
        }
    }
}

// Opens the table for the submissions that `commands` begins with, if one worker plays them
// together. It stays closed if an allocation for opening it fails.
fn opened<T: FileTable, R, G>(
    setting: &Setting<'_, R, G>,
    ring: Ring,
    commands: &[Command],
) -> PlayedRing<OpenRing<T>>
    ensures { ring_of (ring_played result) ≡ ring_of ring }
{
    if setting.workers > 1 {
        return PlayedRing::Closed(ring);
    }
    let needs = needs_together(commands, ring.size());
    if needs.chains == 0 {
        return PlayedRing::Closed(ring);
    }
    match ring.open::<T>(setting.alloc, needs.chains, needs.most) {
        Ok(opened) => PlayedRing::Open(opened),
        Err((back, NoMemory)) => PlayedRing::Closed(back),
    }
}

// Plays a command on an open table, and returns its text, or `None` if it isn't a submission for
// which the table has room.
fn text_on<T: FileTable, R: Threads + Wait + Sync, G: Gate>(
    setting: &Setting<'_, R, G>,
    opened: &mut OpenRing<T>,
    command: &Command,
) -> Option<Result<String, NoMemory>>
    ensures { MatchOption result (opened.new ≡ opened.old) (λ played. IfOk played (λ text.
        Prints opened.old.ring (instruction_of command.now) opened.new.ring (string_bytes text))) }
{
    let Command::Submit(requests) = command else {
        return None;
    };
    let (rt, alloc) = (setting.rt, setting.alloc);
    match opened.submit::<G>(rt, alloc, requests.as_slice(), setting.gate) {
        Ok(None) => None,
        Ok(Some(report)) => Some(answer_text(alloc, opened.catalogue(), Ok(report))),
        Err(fault) => Some(answer_text(alloc, opened.catalogue(), Err(fault))),
    }
}

/// Plays a command on an open table, and returns its text, or `None` if no table is open or the
/// command isn't a submission for which the table has room. The ring stays where it is, since it
/// has a few hundred bytes: moving them for each command took a quarter of the instructions of a
/// small submission.
pub fn open_text<T: FileTable, R: Threads + Wait + Sync, G: Gate>(
    setting: &Setting<'_, R, G>,
    ring: &mut PlayedRing<OpenRing<T>>,
    command: &Command,
) -> Option<Result<String, NoMemory>>
    ensures { MatchOption result (ring.new ≡ ring.old) (λ played. IfOk played (λ text.
        Prints (ring_played ring.old) (instruction_of command.now) (ring_played ring.new)
        (string_bytes text))) }
{
    match ring {
        PlayedRing::Open(opened) => text_on(setting, opened, command),
        PlayedRing::Closed(_) => None,
    }
}

// Plays a command on a ring without an open table.
fn closed_text<T: FileTable, R: Threads + Wait + Sync, G: Gate>(
    setting: &Setting<'_, R, G>,
    ring: Ring,
    command: &Command,
) -> (PlayedRing<OpenRing<T>>, Result<String, NoMemory>)
    ensures { IfOk result.1 (λ text. Prints ring (instruction_of command.now)
        (ring_played result.0) (string_bytes text)) }
{
    let mut ring = ring;
    let text = command_text::<T, R, G>(setting, &mut ring, command);
    (PlayedRing::Closed(ring), text)
}

/// Plays a command that [`open_text`] didn't play, and returns its text. If no table is open, one
/// is opened and stays open if one worker plays the command together with the submissions after it.
/// `commands` begins with the command.
pub fn text_anew<T: FileTable, R: Threads + Wait + Sync, G: Gate>(
    setting: &Setting<'_, R, G>,
    ring: PlayedRing<OpenRing<T>>,
    command: &Command,
    commands: &[Command],
) -> (PlayedRing<OpenRing<T>>, Result<String, NoMemory>)
    ensures { IfOk result.1 (λ text. Prints (ring_played ring) (instruction_of command.now)
        (ring_played result.0) (string_bytes text)) }
{
    // a submission for which an open table has no room is played by itself, and the next one may
    // open a table again
    let together: &[Command] = match &ring {
        PlayedRing::Open(_) => &[],
        PlayedRing::Closed(_) => commands,
    };
    let mut next = opened::<T, R, G>(setting, ring.closed(), together);
    match open_text(setting, &mut next, command) {
        Some(text) => (next, text),
        None => closed_text::<T, R, G>(setting, next.closed(), command),
    }
}
