//! Playing a script: the ring executes its commands, one after another, and the text of each is
//! written.
ghost use Rattle.std.specs.Prelude.{◌≡◌, ◌≤◌};
ghost use Rattle.fx_script.specs.Words.{IfErr, IsOkAnd, OnOk, string_bytes, Appends, MAX_PASSES, ring_of, instructions_of};
ghost use Rattle.fx_script.specs.Play.{IsText, IsTextOfFirst, PrintsAll, PrintsFirst};
ghost use Rattle.fx_script.specs.Run.{IsPlayFault, Writes};

use crate::played_ring::{PlayedRing, open_text, text_anew};
use crate::prints::end_text;
use crate::runner::PlayFault;
use fx_base::NoMemory;
use fx_chain::Gate;
use fx_language::{Command, Script};
use fx_ring::{OpenRing, Ring};
use fx_table::FileTable;
use std::alloc::Global;
use std::io::Write;
use std::sync::Wait;
use std::thread::Threads;

/// The values that stay the same while a script is played: the means to start threads and to wait,
/// the allocator, the number of workers of each submission, and the gate.
#[derive(Drop)]
pub struct Setting<'a, R, G> {
    pub rt: &'a R,
    pub alloc: Global,
    pub workers: u32,
    pub gate: &'a G,
    pub ghost some: { 1 ≤ workers },
    pub ghost few: { workers ≤ MAX_PASSES },
}

// Writes the text of a command in one call, so that a reader that gets one write at a time gets one
// command at a time.
pub fn write_text<W: Write>(writer: &mut W, text: Result<String, NoMemory>) -> Result<(), PlayFault>
    ensures written { OnOk result (IsOkAnd text (λ text.
        Appends (W.contents writer.old) (W.contents writer.new) (string_bytes text))) }
    ensures fault { IfErr result (λ fault. IsPlayFault fault
        (W.contents writer.new ≡ W.contents writer.old)) }
{
    let Ok(text) = text else {
        return Err(PlayFault::NoMemory);
    };
    writer
        .write_all(text.as_str().as_bytes())
        .map_err(|_| PlayFault::Write)
}

// Plays the commands, writes the text of each, and closes the files that are left at the end.
fn play_commands<T: FileTable, R: Threads + Wait + Sync, G: Gate, W: Write>(
    setting: &Setting<'_, R, G>,
    ring: Ring,
    commands: &[Command],
    writer: &mut W,
) -> (Ring, Result<(), PlayFault>)
    ensures ok { OnOk result.1 (Writes (PrintsAll ring (instructions_of commands.now))
        (W.contents writer.old) (W.contents writer.new)) }
    ensures fault { IfErr result.1 (λ fault. IsPlayFault fault
        (Writes (PrintsFirst ring (instructions_of commands.now))
        (W.contents writer.old) (W.contents writer.new))) }
    ensures closed { OnOk result.1 ((ring_of result.0).size ≡ 0) }
{
    let mut now: PlayedRing<OpenRing<T>> = PlayedRing::Closed(ring);
    for (i, command) in commands.iter().enumerate() {
        let Some(text) = open_text(setting, &mut now, command) else {
            let (next, text) = text_anew(setting, now, command, &commands[i..]);
            now = next;
            if let Err(fault) = write_text(writer, text) {
                return (now.closed(), Err(fault));
            }
            continue;
        };
        if let Err(fault) = write_text(writer, text) {
            return (now.closed(), Err(fault));
        }
    }
    let mut ring = now.closed();
    let text = end_text(setting.alloc, &mut ring);
    (ring, write_text(writer, text))
}

/// Plays a script on a ring without a table, each submission on `workers` workers, and writes the
/// text of each command when it is done. The files that are left are closed at the end. Requires 1
/// to [`fx_table::MAX_PASSES`] workers.
///
/// # Errors
/// `Write` if a write fails; how much of its text was written is unknown. `NoMemory` if an
/// allocation fails; then the text of the earlier commands was written. Open files are discarded.
pub fn play<T: FileTable, G: Gate, W: Write>(
    rt: &(impl Threads + Wait + Sync),
    alloc: Global,
    script: Script,
    workers: u32,
    gate: &G,
    writer: &mut W,
) -> Result<(), PlayFault>
    requires workers { (1 ≤ workers) × (workers ≤ MAX_PASSES) }
    ensures ok { OnOk result
        (Writes (IsText script) (W.contents writer.old) (W.contents writer.new)) }
    ensures fault { IfErr result (λ fault. IsPlayFault fault
        (Writes (IsTextOfFirst script) (W.contents writer.old) (W.contents writer.new))) }
{
    let (catalogue, commands) = script.into_parts();
    let setting = Setting {
        rt,
        alloc,
        workers,
        gate,
    };
    let ring = Ring::new(alloc, catalogue);
    let (ring, result) = play_commands::<T, _, G, W>(&setting, ring, commands.as_slice(), writer);
    // After a complete play, no file is left in the ring.
    ring.abandon();
    result
}
