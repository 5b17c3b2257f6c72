// The blocks of a response, read from its bytes.
ghost use Rattle.std.specs.Prelude.{◌≡◌, ◌+◌, ◌<◌, ◌≤◌, length, IfOk, IfErr};
ghost use Rattle.accurip_match.specs.Response.{AreBlocks, IsFail, block_at, block_end, entry_at, number_at};

use crate::block::{Block, Entries, Entry, Response};
use byteorder::{ByteOrder, LittleEndian};
use rip_basics::Oom;
use std::alloc::Global;

/// Why a response isn't read.
#[derive(Clone, Copy, Debug, PartialEq, Eq)]
pub enum ResponseFail {
    /// The block that begins with this byte, counted from 0, goes on past the end.
    Cut { at: u64 },
    /// Want of memory.
    Oom,
}

// The bytes of a block before its entries, and those of an entry.
const HEAD: usize = 13;

const ENTRY: usize = 9;

// The number at this place.
fn number_at(bytes: &[u8], at: usize) -> u32
    requires { at + 4 ≤ length bytes.now }
    ensures { result ≡ number_at bytes.now at }
{
    LittleEndian::read_u32(&bytes[at..])
}

// The entry at this place.
fn entry_at(bytes: &[u8], at: usize) -> Entry
    requires { at + 9 ≤ length bytes.now }
    ensures { result ≡ entry_at bytes.now at }
{
    Entry {
        confidence: bytes[at],
        sum: number_at(bytes, at + 1),
        extra: number_at(bytes, at + 5),
    }
}

// The block at this place.
#[tactic(auto, unfolding(crate::specs::Response::block_at))]
fn block_at(alloc: Global, bytes: &[u8], at: usize) -> Result<Block, Oom>
    requires begins { at < length bytes.now }
    requires ends { block_end bytes.now at ≤ length bytes.now }
    ensures { IfOk result (λ block. block ≡ block_at bytes.now at) }
{
    let mut entries = Vec::new(alloc);
    for t in 0..bytes[at] as usize {
        entries.push(entry_at(bytes, at + HEAD + ENTRY * t))?;
    }
    Ok(Block {
        id1: number_at(bytes, at + 1),
        id2: number_at(bytes, at + 5),
        freedb: number_at(bytes, at + 9),
        entries: Entries::of(entries),
    })
}

/// The blocks that a response's bytes are. The response is cut where a block begins that is longer than what is left.
pub fn read_response(alloc: Global, bytes: &[u8]) -> Result<Response, ResponseFail>
    ensures found { IfOk result (AreBlocks bytes.now 0 (length bytes.now)) }
    ensures fail { IfErr result (IsFail bytes.now) }
{
    let mut blocks = Vec::new(alloc);
    let mut at = 0;
    'whole: while at < bytes.len() {
        let size = HEAD + ENTRY * bytes[at] as usize;
        if bytes.len() - at < size {
            return Err(ResponseFail::Cut { at: at as u64 });
        }
        let Ok(block) = block_at(alloc, bytes, at) else {
            return Err(ResponseFail::Oom);
        };
        let Ok(()) = blocks.push(block) else {
            return Err(ResponseFail::Oom);
        };
        at += size;
    }
    Ok(Response::of(blocks))
}
