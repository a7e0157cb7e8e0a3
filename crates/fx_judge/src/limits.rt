//! The limits of a search, as `fixcheck` takes them.
use check_flight::LogLimits;
use check_search::Limits;

/// The number of bytes of a MiB.
const MIB: usize = 1_048_576;

/// Returns the limits for a number of states and a number of MiB.
pub fn limits_of(states: u32, memory: u32) -> Limits {
    Limits {
        states: states as usize,
        bytes: (memory as usize).saturating_mul(MIB),
    }
}

/// Returns the limits of a judgement of a log for a number of states, one of MiB and one of moves.
pub fn log_limits_of(states: u32, memory: u32, moves: u64) -> LogLimits {
    LogLimits {
        search: limits_of(states, memory),
        moves,
    }
}
