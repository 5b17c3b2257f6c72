// Whoever watches how far reading goes.

/// Is told how far reading goes. It promises nothing, and nothing that a folder promises rests on it.
pub trait Watcher {
    /// A file was told to have so many bytes.
    fn sized(&mut self, name: &str, size: u64);

    /// So many bytes of a file were read, from a place on.
    fn read(&mut self, name: &str, at: u64, bytes: usize);

    /// The command that read so far has ended, and another one begins.
    fn done(&mut self);
}
