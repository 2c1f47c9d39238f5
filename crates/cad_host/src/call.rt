// What a host in memory did, call by call, so that a crash can be replayed.
use crate::Tape;

/// A call that changed something, a take, or a call that failed. Of a write that failed the first half of the bytes was
/// written, of a put that failed these were put, and a sync that failed changed nothing.
#[derive(Drop)]
pub enum Call {
    Wrote(Tape, u64, Vec<u8>),
    BrokeWrite(Tape, u64, Vec<u8>),
    Synced(Tape),
    BrokeSync(Tape),
    Filled(Tape, Vec<u8>),
    Put(Vec<u8>),
    PutPart(Vec<u8>),
    Took(Vec<u8>),
    TakeFailed,
    LookFailed(Tape),
}
