//! The program `fixfiles`: reads a script from standard input and plays it.
#![tactic(auto)]

use fx_arguments::fixfiles::{Settings, Table, asked_settings};
use fx_baton::BatonTable;
use fx_chain::OpenGate;
use fx_counted::CountedTable;
use fx_script::{PlayFault, run};
use std::io;
use std::process::ExitCode;

// Returns the exit status of a run that ended early: 3 if the input isn't a script, 4 for a failed
// read or write, 5 if an allocation failed.
fn status_of(fault: PlayFault) -> u8 {
    match fault {
        PlayFault::Script { .. } => 3,
        PlayFault::Read | PlayFault::Write => 4,
        PlayFault::NoMemory => 5,
    }
}

fn main(rt: HostRuntime) -> ExitCode {
    let Settings { workers, table } = match asked_settings(&rt) {
        Ok(settings) => settings,
        Err(refusal) => return ExitCode::from(refusal.end(&rt, "fixfiles")),
    };
    let (alloc, gate) = (rt.alloc(), &OpenGate);
    let (input, output) = (&mut rt.reader(), &mut io::writer(&rt));
    let played = match table {
        Table::Words => run::<CountedTable, _, _, _>(&rt, alloc, workers, gate, input, output),
        Table::Baton => run::<BatonTable, _, _, _>(&rt, alloc, workers, gate, input, output),
    };
    match played {
        Ok(()) => ExitCode::SUCCESS,
        Err(fault) => {
            // Nothing can be done if standard error fails.
            let _ = eprintln!(&rt; "fixfiles: {fault}");
            ExitCode::from(status_of(fault))
        }
    }
}
