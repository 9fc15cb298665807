use sqlite_items::Items;

/// How serving ended: at the end of the input; by a fault of the source or the sink, which was counted; at a line that is no request or
/// has more than 68,157,440 bytes, of which the first 68,157,441 are kept; after 2^62 bytes; or for want of memory.
#[derive(Drop)]
pub enum Served {
    End,
    ReadFault,
    WriteFault,
    BadLine { line: Items<u8> },
    Limit,
    Memory,
}
