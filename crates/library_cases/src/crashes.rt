// A stop at each moment of `register` and of `upgrade`, and a call that fails.
use crate::made::{late, wav};
use crate::runs::number_of;
use parity_store::{Parity, Record, read_record, record_bytes};
use rip_memory::{CrashShelf, MemoryShelf, fill};
use rip_outside::{Shelf, ShelfCall};
use std::alloc::Global;
use std::test::Fail;

// The WAV file of 100 sectors of zeros.
fn zeros(alloc: Global) -> Result<Vec<u8>, Fail> {
    let words = vec![in alloc; 0u16; 117_600]?;
    wav(alloc, &words)
}

// Puts a file into the folder, and settles it.
fn settle(files: &mut CrashShelf, name: &str, bytes: &[u8]) -> Result<(), Fail> {
    fill(files, name, bytes)?;
    files.sync(name)?;
    Ok(())
}

#[test]
fn a_stop_leaves_the_record_absent_or_whole(rt: HostRuntime) -> Result<(), Fail> {
    let alloc = rt.alloc();
    let mut files = CrashShelf::new(alloc);
    settle(&mut files, "z.wav", &zeros(alloc)?)?;
    settle(&mut files, "old.rpar", &[1, 2, 3])?;
    let before = files.calls();
    assert!(rt; before == 6);
    assert!(rt; number_of(alloc, &mut files, "register z.wav r.rpar")? == 0);
    let after = files.calls();
    assert!(rt; after == 10);
    for calls in before..after + 1 {
        for torn in [false, true] {
            let mut left = files.leftover(alloc, calls, torn)?;
            assert!(rt; left.bytes("old.rpar") == Some([1, 2, 3].as_slice()));
            if calls == after {
                assert!(rt; left.bytes("r.rpar").is_some());
                assert!(rt; left.bytes("r.rpar.part").is_none());
            } else {
                assert!(rt; left.bytes("r.rpar").is_none());
                if calls == 8 && torn {
                    assert!(rt; left.bytes("r.rpar.part").map(|bytes| bytes.len()) == Some(94_124));
                }
                if calls == 8 && !torn {
                    assert!(rt; left.bytes("r.rpar.part").is_none());
                }
                assert!(rt; number_of(alloc, &mut left, "register z.wav r.rpar")? == 0);
                assert!(rt; left.bytes("r.rpar").map(|bytes| bytes.len()) == Some(188_248));
            }
        }
    }
    Ok(())
}

// The record of 100 sectors.
fn stored(alloc: Global) -> Result<Vec<u8>, Fail> {
    let mut files = MemoryShelf::new(alloc);
    let disc = wav(alloc, &late(alloc, 0)?)?;
    fill(&mut files, "disc.wav", &disc)?;
    if number_of(alloc, &mut files, "register disc.wav r.rpar")? != 0 {
        return Err(Fail::from("no record was made"));
    }
    let Some(bytes) = files.bytes("r.rpar") else {
        return Err(Fail::from("no record stands"));
    };
    let mut copy = Vec::new(alloc);
    copy.extend_from_slice(bytes)?;
    Ok(copy)
}

// The record of version 1 with the layout and the eight words for each column of this one.
fn without_seal(alloc: Global, bytes: &[u8]) -> Result<Vec<u8>, Fail> {
    if bytes.len() > 800_000 {
        return Err(Fail::from("too long for a record"));
    }
    let Ok(record) = read_record(alloc, bytes, bytes.len() as u64) else {
        return Err(Fail::from("no record"));
    };
    let Record { layout, parity, .. } = record;
    let Parity::Eight(table) = parity else {
        return Err(Fail::from("another number of words"));
    };
    let old = Record {
        layout,
        parity: Parity::Eight(table),
        seal: None,
    };
    Ok(record_bytes(alloc, &old)?)
}

#[test]
fn a_stop_of_an_upgrade_leaves_the_old_record_or_the_new(rt: HostRuntime) -> Result<(), Fail> {
    let alloc = rt.alloc();
    let new = stored(alloc)?;
    let old = without_seal(alloc, &new)?;
    let rip = wav(alloc, &late(alloc, 30)?)?;
    let mut files = CrashShelf::new(alloc);
    settle(&mut files, "in.wav", &rip)?;
    settle(&mut files, "r.rpar", &old)?;
    let before = files.calls();
    assert!(rt; before == 6);
    assert!(rt; number_of(alloc, &mut files, "upgrade in.wav r.rpar")? == 0);
    let after = files.calls();
    assert!(rt; after == 10);
    for calls in before..after + 1 {
        for torn in [false, true] {
            let left = files.leftover(alloc, calls, torn)?;
            let is_old = left.bytes("r.rpar") == Some(old.as_slice());
            let is_new = left.bytes("r.rpar") == Some(new.as_slice());
            assert!(rt; is_old == (calls < after) && is_new == (calls == after));
        }
        let mut left = files.leftover(alloc, calls, true)?;
        let number = number_of(alloc, &mut left, "upgrade in.wav r.rpar")?;
        assert!(rt; number == if calls == after { 19 } else { 0 });
        assert!(rt; left.bytes("r.rpar") == Some(new.as_slice()));
        assert!(rt; left.bytes("r.rpar.part").is_none());
    }
    Ok(())
}

#[test]
fn a_rename_that_fails_stores_nothing(rt: HostRuntime) -> Result<(), Fail> {
    let alloc = rt.alloc();
    let mut files = CrashShelf::new(alloc);
    fill(&mut files, "z.wav", &zeros(alloc)?)?;
    files.fail_on(ShelfCall::Rename, 1)?;
    assert!(rt; number_of(alloc, &mut files, "register z.wav r.rpar")? == 31);
    assert!(rt; files.size("r.rpar")?.is_none());
    assert!(rt; number_of(alloc, &mut files, "register z.wav r.rpar")? == 0);
    assert!(rt; files.size("r.rpar")? == Some(188_248));
    Ok(())
}
