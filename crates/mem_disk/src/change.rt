/// What was done to a directory.
#[derive(Debug, Drop)]
pub enum Change {
    /// A file was adopted with these bytes.
    Added(u32, Vec<u8>),
    /// An adoption of these bytes was refused after it was begun: a crash may leave the file, whole.
    Offered(u32, Vec<u8>),
    /// These bytes were written in place.
    Wrote(u32, u64, Vec<u8>),
    /// A write of so many bytes in place was refused after it was begun: a crash may leave any bytes there.
    Tore(u32, u64, u64),
    /// A file was made durable.
    Synced(u32),
    /// A file was removed.
    Removed(u32),
    /// A removal was refused after it was begun: a crash may leave the file or not.
    Condemned(u32),
}
