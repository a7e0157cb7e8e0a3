//! The events of a log as C passes them: of fixed size, with ranges of other arrays.

/// A file of the catalogue of a log.
#[repr(C)]
#[derive(Drop)]
pub struct YachtFile {
    /// The position of the first byte of its name in `bytes`.
    pub name: u32,
    /// The number of bytes of its name.
    pub name_length: u32,
    /// The position of its first byte in `bytes`.
    pub first: u32,
    /// The number of its bytes.
    pub count: u32,
}

/// A request of a chain. A field that its kind doesn't use says nothing.
#[repr(C)]
#[derive(Drop)]
pub struct YachtRequest {
    /// One of `REQUEST_OPEN` to `REQUEST_UPDATE`.
    pub kind: u32,
    /// The slot, or the first slot of an update.
    pub slot: u32,
    /// The first byte of a read, or the position of an update's first entry in `entries`.
    pub first: u32,
    /// The number of bytes of a read, or of entries of an update.
    pub count: u32,
    /// The flags, each by its bit.
    pub flags: u8,
    /// The number of an open's file in the catalogue, from 0.
    pub file: u8,
}

/// An event of a log. A field that its kind doesn't use says nothing.
#[repr(C)]
#[derive(Drop)]
pub struct YachtEvent {
    /// One of `EVENT_CALL` to `EVENT_SETTLED`.
    pub kind: u32,
    /// The number of the call, from 1.
    pub call: u32,
    /// The number of the member that is answered, from 1.
    pub member: u32,
    /// The result of that member.
    pub res: i32,
    /// The slot of a look.
    pub slot: u32,
    /// The position of a call's first request in `requests`, or of the first byte that a read
    /// returned in `bytes`.
    pub first: u32,
    /// The number of requests, or of bytes.
    pub count: u32,
    /// The call that installed the file that was found or closed.
    pub by_call: u32,
    /// The member that installed it, from 1.
    pub by_member: u32,
    /// The position in the list of that member, from 0; 0 for an open.
    pub by_entry: u32,
    /// The number of that file in the catalogue, from 0.
    pub file: u8,
}
