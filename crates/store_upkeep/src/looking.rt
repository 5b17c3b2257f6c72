// A look at an entry.
ghost use Rattle.std.specs.Prelude.{◌≡◌, ◌≤◌, ℕ, List, length, min, take, IfSome, IfOk};
ghost use Rattle.std.specs.Option.{ForSome};
ghost use Rattle.std.specs.FinMap.{get};
ghost use Rattle.rip_outside.specs.Files.{IsHeld, bytes_at};
ghost use Rattle.rip_outside.specs.Reading.{OnlyReads};
ghost use Rattle.parity_store.specs.Reading.{most_bytes, stored_of};
ghost use Rattle.store_upkeep.specs.Entries.{entry_state, state_of_bytes, state_of_record};
ghost use Rattle.store_upkeep.specs.Looking.{HasTextKey, IsCopied, IsReadInto, LookFaultHasCause, LookTakes, Sees, is_good, state_seen};

use disc_ids::{Id28, store_key};
use parity_store::{FindFail, Record, RecordFail, RecordKind, find, read_record, stored_name};
use rip_outside::{Oom, Shelf, ShelfCall};
use std::alloc::Global;

/// What an entry was seen to be.
#[derive(Drop)]
pub enum Seen {
    /// A record that stands under the name of its key.
    Good(Record),
    /// A file that is no record.
    Bad { kind: RecordKind },
    /// A record of the disc with this key, which isn't in its name.
    Misnamed { key: Id28 },
}

impl Seen {
    // Whether it is a record that stands under the name of its key.
    fn is_good(&self) -> bool
        ensures { result ≡ is_good (state_seen self.now) }
    {
        match self {
            Seen::Good(_) => true,
            _ => false,
        }
    }
}

/// Why an entry wasn't looked at.
#[derive(Clone, Copy, Debug, PartialEq, Eq)]
pub enum LookFail {
    /// A call of this kind failed and was counted.
    ReadFault { call: ShelfCall },
    /// Memory was wanting.
    Oom,
}

/// The most bytes that are read of an entry. No record is longer.
pub const MOST_BYTES: usize = 800_000;

// Sees whether a record stands under the name of its key.
fn see_name(alloc: Global, store: &str, name: &str, rec: Record) -> Result<Seen, Oom>
    ensures seen { IfOk result (λ seen. state_of_record store.now name.now (stored_of rec) ≡ state_seen seen) }
    ensures key { IfOk result HasTextKey }
{
    let key = store_key(alloc, &rec.layout)?;
    let wanted = stored_name(alloc, store, &key)?;
    if name == wanted.as_str() {
        Ok(Seen::Good(rec))
    } else {
        Ok(Seen::Misnamed { key })
    }
}

/// Looks at an entry of a store, which must be held where the shelf tells what it holds. Where it doesn't, and no file has
/// the name, the entry is seen as an empty file. At most the file's length is taken of it.
#[tactic(auto, unfolding(crate::specs::Entries::state_of_bytes))]
pub fn look<S: Shelf>(
    alloc: Global,
    shelf: &mut S,
    store: &str,
    name: &str,
) -> Result<Seen, LookFail>
    requires held { ForSome (S.held shelf.old) (IsHeld name.now) }
    ensures answer { IfSome (S.held shelf.old) (λ files. Sees result (entry_state store.now files name.now)) }
    ensures key { IfOk result HasTextKey }
    ensures only { OnlyReads S.Shelf shelf.old shelf.new }
    ensures cause { LookFaultHasCause (S.faults shelf.old) (S.faults shelf.new) result }
    ensures taken { IfSome (S.held shelf.old) (λ files. LookTakes (length (bytes_at name.now files)) result (S.taken shelf.old) (S.taken shelf.new)) }
{
    match find(alloc, shelf, name) {
        Ok(rec) => match see_name(alloc, store, name, rec) {
            Ok(seen) => Ok(seen),
            Err(_) => Err(LookFail::Oom),
        },
        Err(FindFail::NoRecord) => Ok(Seen::Bad {
            kind: RecordKind::Mark,
        }),
        Err(FindFail::Refused { kind }) => Ok(Seen::Bad { kind }),
        Err(FindFail::ReadFault { call }) => Err(LookFail::ReadFault { call }),
        Err(FindFail::Oom) => Err(LookFail::Oom),
    }
}

// Whether the first bytes of an entry of this size are those of a good one.
#[tactic(auto, unfolding(crate::specs::Entries::state_of_bytes))]
fn is_good_entry(
    alloc: Global,
    store: &str,
    name: &str,
    first: &[u8],
    size: u64,
) -> Result<bool, Oom>
    requires { length first.now ≡ min size most_bytes }
    ensures { (bytes : List ℕ) → length bytes ≡ size → first.now ≡ take most_bytes bytes → IfOk result (λ good. good ≡ is_good (state_of_bytes store.now name.now bytes)) }
{
    match read_record(alloc, first, size) {
        Ok(rec) => Ok(see_name(alloc, store, name, rec)?.is_good()),
        Err(RecordFail::Refused { .. }) => Ok(false),
        Err(RecordFail::Oom) => Err(Oom),
    }
}

// Reads a file's first bytes into the front of a buffer, as many as the longest record has, and answers how many the file
// has, or None where no file has the name.
fn read_first<S: Shelf>(shelf: &mut S, name: &str, buf: &mut [u8]) -> Result<Option<u64>, LookFail>
    requires room { length buf.old ≡ most_bytes }
    ensures answer { IfSome (S.held shelf.old) (λ files. IfOk result (IsReadInto buf.new (get files name.now))) }
    ensures room { length buf.new ≡ most_bytes }
    ensures only { OnlyReads S.Shelf shelf.old shelf.new }
    ensures cause { LookFaultHasCause (S.faults shelf.old) (S.faults shelf.new) result }
    ensures taken { IfSome (S.held shelf.old) (λ files. LookTakes (length (bytes_at name.now files)) result (S.taken shelf.old) (S.taken shelf.new)) }
{
    let size = match shelf.size(name) {
        Ok(Some(size)) => size,
        Ok(None) => return Ok(None),
        Err(_) => {
            return Err(LookFail::ReadFault {
                call: ShelfCall::Size,
            });
        }
    };
    let count = size.min(MOST_BYTES as u64) as usize;
    match shelf.read_at(name, 0, &mut buf[..count]) {
        Ok(()) => Ok(Some(size)),
        Err(_) => Err(LookFail::ReadFault {
            call: ShelfCall::ReadAt,
        }),
    }
}

/// Reads an entry of a store into the front of a buffer, and answers how many bytes it has, or None exactly where the entry
/// is bad or no file has its name. The buffer has room for the longest record. At most the file's length is taken of it.
pub fn copy_good<S: Shelf>(
    alloc: Global,
    shelf: &mut S,
    store: &str,
    name: &str,
    buf: &mut [u8],
) -> Result<Option<usize>, LookFail>
    requires room { length buf.old ≡ most_bytes }
    ensures answer { IfSome (S.held shelf.old) (λ files. IfOk result (IsCopied (entry_state store.now files name.now) (bytes_at name.now files) buf.new)) }
    ensures within { IfOk result (λ found. IfSome found (λ size. size ≤ most_bytes)) }
    ensures room { length buf.new ≡ most_bytes }
    ensures only { OnlyReads S.Shelf shelf.old shelf.new }
    ensures cause { LookFaultHasCause (S.faults shelf.old) (S.faults shelf.new) result }
    ensures taken { IfSome (S.held shelf.old) (λ files. LookTakes (length (bytes_at name.now files)) result (S.taken shelf.old) (S.taken shelf.new)) }
{
    let Some(size) = read_first(shelf, name, buf)? else {
        return Ok(None);
    };
    let count = size.min(MOST_BYTES as u64) as usize;
    match is_good_entry(alloc, store, name, &buf[..count], size) {
        Ok(true) => Ok(Some(count)),
        Ok(false) => Ok(None),
        Err(_) => Err(LookFail::Oom),
    }
}
