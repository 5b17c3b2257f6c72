// What a run answers, and how it is printed.
use rip_memory::MemorySink;
use rip_outside::ShelfCall;
use rip_report::Status;
use sha2::{Digest, Sha256};
use std::io;

// The most bytes of a text that is printed whole.
const SHORT: usize = 1_000;

/// What a run came to, and the output to which its text went.
#[derive(Drop)]
pub struct Answer {
    pub status: Status,
    pub out: MemorySink,
}

impl Answer {
    /// The call whose failure is told, if one is.
    pub fn failed_call(&self) -> Option<ShelfCall> {
        match self.status {
            Status::ReadFault { call } | Status::WriteFault { call } => Some(call),
            _ => None,
        }
    }

    /// Whether the other answer prints the same.
    pub fn is_same(&self, other: &Answer) -> bool {
        self.status.number() == other.status.number()
            && self.failed_call() == other.failed_call()
            && self.out.bytes() == other.out.bytes()
    }

    /// Prints the number of the status, of a fault its call, and then the text, or of a long one its digest.
    pub fn print(&self, rt: &impl Print) -> io::Result<()> {
        let number = self.status.number();
        match self.failed_call() {
            Some(call) => println!(rt; "status {number} {call:?}")?,
            None => println!(rt; "status {number}")?,
        }
        let text = self.out.bytes();
        if text.len() > SHORT {
            print_digest(rt, text)
        } else {
            rt.write_all(text)
        }
    }
}

/// Prints how many bytes there are, and their SHA-256.
pub fn print_digest(rt: &impl Print, bytes: &[u8]) -> io::Result<()> {
    print!(rt; "{} bytes ", bytes.len())?;
    for byte in Sha256::digest(bytes) {
        print!(rt; "{byte:02x}")?;
    }
    println!(rt; "")
}
