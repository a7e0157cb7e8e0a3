//! The transitions of the machine. They occur only in contracts: no code creates a value of them.
use crate::key::LifeKey;

/// A transition of the machine, as contracts see it, with the key that it is about. No code creates
/// one.
pub enum Transition {
    /// A slot begins a life under a new key. An open at the slot is to be submitted.
    Reserves(LifeKey),
    /// A slot of the ring's allocation range begins a life under a new key, with a file that the
    /// kernel has put there.
    Adopts(LifeKey),
    /// The open is to be submitted in a chain, with this number of requests on its file. They are
    /// followed by a close of it, if the bool is true.
    Chains(LifeKey, u32, bool),
    /// The completion of that open was seen, and whether the open installed a file.
    Opens(LifeKey, bool),
    /// A request on the file is to be submitted.
    Starts(LifeKey),
    /// The completion of such a request was seen.
    Finishes(LifeKey),
    /// The file gets one more user that is not a request, such as a worker in another thread.
    Holds(LifeKey),
    /// Such a user is gone.
    Releases(LifeKey),
    /// No more requests and users may begin.
    Ends(LifeKey),
    /// Nobody uses the file any more. Its close is to be submitted.
    Asks(LifeKey),
    /// The completion of that close was seen. The slot is free.
    Closes(LifeKey),
    /// The completion of that close was seen. The close failed, and the file is still there.
    FailsToClose(LifeKey),
}
