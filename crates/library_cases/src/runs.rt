// How many bytes a run takes of the files.
use crate::made::{late, wav};
use crate::mending::wrong;
use rip_engine::run;
use rip_memory::{MemoryShelf, MemorySink, fill};
use rip_outside::Folder;
use std::alloc::Global;
use std::test::Fail;

// Runs the words of a line, which single blanks part, and tells the number with which the run ends.
pub fn number_of<F: Folder>(alloc: Global, files: &mut F, line: &str) -> Result<u8, Fail> {
    let mut words = Vec::new(alloc);
    for word in line.split(' ') {
        words.push(String::from_str(alloc, word)?)?;
    }
    let mut out = MemorySink::new(alloc, 1_048_576)?;
    Ok(run(alloc, &words, files, &mut out).number())
}

// The bytes of the rip and of the record that are read.
const RIP: u128 = 235_244;

const RECORD: u128 = 188_248;

// The words of a rip are read three times, of two bytes each: for the search, for the seal, and to be written. A trial
// takes none of the files.
#[test]
fn a_rip_that_is_mended_is_read_three_times(rt: HostRuntime) -> Result<(), Fail> {
    let alloc = rt.alloc();
    let mut files = MemoryShelf::new(alloc);
    fill(&mut files, "disc.wav", &wav(alloc, &late(alloc, 0)?)?)?;
    fill(&mut files, "in.wav", &wav(alloc, &wrong(alloc)?)?)?;
    assert!(rt; number_of(alloc, &mut files, "register disc.wav r.rpar")? == 0);
    let before = files.taken_so_far();
    assert!(rt; number_of(alloc, &mut files, "repair in.wav r.rpar out.wav")? == 0);
    let after = files.taken_so_far();
    let taken = after.saturating_sub(before);
    assert!(rt; taken >= 705_600 && taken <= 3 * (RIP + RECORD));
    assert!(rt; number_of(alloc, &mut files, "trial 100 7 -17 4")? == 0);
    assert!(rt; files.taken_so_far() == after);
    Ok(())
}
