// The discs of a list, one after another.
ghost use Rattle.std.specs.Prelude.{◌≡◌, ◌≤◌, length};
ghost use Rattle.rip_commands.specs.Seen.{seen};
ghost use Rattle.cmd_batch.specs.BatchOutcome.{batch_status, is_done};
ghost use Rattle.cmd_batch.specs.Batch.{DiscsRan};
ghost use Rattle.cmd_batch.specs.Inner.{DiscRan, PutsLast, PutsPart};

use batch_list::Words;
use engine_steps::Answer;
use rip_commands::{report, tell_words};
use rip_outside::{Folder, Sink};
use rip_report::{Status, batch_line, disc_part};
use std::alloc::Global;

fn is_done(status: &Status) -> bool
    ensures { result ≡ is_done status.now }
{
    match status {
        Status::Done => true,
        _ => false,
    }
}

// Puts the part of the disc with this number in one call.
fn put_part<K: Sink>(alloc: Global, disc: u32, told: &Answer, out: &mut K) -> Result<(), Status>
    ensures part { PutsPart disc told.now (K.told out.old) (K.told out.new) (K.faults out.old) (K.faults out.new) result }
    ensures later { K.faults out.old ≤ K.faults out.new }
{
    if let Status::WantOfMemory = &told.status {
        return Err(Status::WantOfMemory);
    }
    let Ok(part) = disc_part(alloc, disc, told.status.number(), told.text.as_str()) else {
        return Err(Status::WantOfMemory);
    };
    match out.put(part.as_str().as_bytes()) {
        Ok(()) => Ok(()),
        Err(_) => Err(Status::SinkFault),
    }
}

// The status of a batch whose discs all ran, by how many weren't done.
fn batch_status(failed: u32) -> Status
    ensures { result ≡ batch_status failed }
{
    if failed == 0 {
        Status::Done
    } else {
        Status::BatchFailed { failed }
    }
}

// Puts the last line, once all discs ran.
fn put_last<K: Sink>(alloc: Global, discs: u32, failed: u32, out: &mut K) -> Status
    ensures { PutsLast discs failed (K.told out.old) (K.told out.new) (K.faults out.old) (K.faults out.new) result }
{
    match batch_line(alloc, discs, failed) {
        Ok(line) => report(out, line.as_str().as_bytes(), batch_status(failed)),
        Err(_) => Status::WantOfMemory,
    }
}

// Runs the disc with this number, and puts its part: whether it was done, or how the batch ends.
fn run_disc<F: Folder, K: Sink>(
    alloc: Global,
    disc: u32,
    words: &Words,
    files: &mut F,
    out: &mut K,
) -> Result<bool, Status>
    ensures { DiscRan disc words.now (seen F.Shelf K.Sink files.old out.old) (seen F.Shelf K.Sink files.new out.new) (F.crashes files.old) (F.crashes files.new) result }
{
    files.forget();
    let told = tell_words(alloc, words.as_slice(), files);
    put_part(alloc, disc, &told, out)?;
    Ok(is_done(&told.status))
}

/// Runs the commands of these discs in order, and puts the part of each as it ends, and the last line.
pub fn run_discs<F: Folder, K: Sink>(
    alloc: Global,
    discs: &[Words],
    files: &mut F,
    out: &mut K,
) -> Status
    requires { length discs.now ≤ 1000 }
    ensures { DiscsRan discs.now (seen F.Shelf K.Sink files.old out.old) (seen F.Shelf K.Sink files.new out.new) (F.crashes files.old) (F.crashes files.new) result }
{
    let mut failed: u32 = 0;
    for (index, words) in discs.iter().enumerate() {
        match run_disc(alloc, index as u32 + 1, words, files, out) {
            Ok(done) => failed += u32::from(!done),
            Err(status) => return status,
        }
    }
    put_last(alloc, discs.len() as u32, failed, out)
}
