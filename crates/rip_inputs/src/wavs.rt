// The WAV files of a rip.
ghost use Rattle.std.specs.Prelude.{◌≡◌, All, length, IfOk, IfSome};
ghost use Rattle.std.specs.FinMap.{get};
ghost use Rattle.rip_outside.specs.Files.{bytes_at};
ghost use Rattle.rip_outside.specs.Reading.{OnlyReads};
ghost use Rattle.image_mender.specs.Joined.{AreInFiles, EndsInRange, IsInFile, part_words};
ghost use Rattle.rip_inputs.specs.Opening.{lengths_of, wav_opened, wavs_opened};
ghost use Rattle.rip_inputs.specs.Telling.{TellsOpening, OpeningHasCause, IsShort, OpeningTakes, part_names, wavs_of};

use crate::rip::RipFail;
use image_mender::Part;
use rip_outside::{Name, Shelf};
use std::alloc::Global;
use wav_frames::{WavFail, open_wav};

// The words of the WAV file of this name.
#[tactic(auto, unfolding(crate::specs::Opening::wav_opened))]
fn open_part<S: Shelf>(alloc: Global, shelf: &mut S, name: &str) -> Result<Part, RipFail>
    ensures answer { IfSome (S.held shelf.old) (λ files. TellsOpening (λ part. part_words part files) result (wav_opened name.now (get files name.now))) }
    ensures inside { IfSome (S.held shelf.old) (λ files. IfOk result (λ part. IsInFile part files)) }
    ensures named { IfOk result (λ part. part.name ≡ name.now) }
    ensures short { IfOk result IsShort }
    ensures ends { IfOk result EndsInRange }
    ensures only { OnlyReads S.Shelf shelf.old shelf.new }
    ensures cause { OpeningHasCause (S.faults shelf.old) (S.faults shelf.new) result }
    ensures taken { OpeningTakes (S.held shelf.old) (λ files. length (bytes_at name.now files)) result (S.taken shelf.old) (S.taken shelf.new) }
{
    match open_wav(shelf, name) {
        Ok(wav) => Ok(Part {
            name: Name::copied(alloc, name)?,
            data_at: wav.data_at,
            words: wav.words,
        }),
        Err(WavFail::Missing) => {
            let name = Name::copied(alloc, name)?;
            Err(RipFail::Missing { name })
        }
        Err(WavFail::Refused { kind, at }) => {
            let name = Name::copied(alloc, name)?;
            Err(RipFail::WavRefused { name, kind, at })
        }
        Err(WavFail::ReadFault { call }) => Err(RipFail::ReadFault { call }),
    }
}

/// The words of each of these WAV files, in their order.
pub fn open_wavs<S: Shelf>(
    alloc: Global,
    shelf: &mut S,
    names: &[Name],
) -> Result<Vec<Part>, RipFail>
    ensures answer { IfSome (S.held shelf.old) (λ files. TellsOpening (λ parts. wavs_of parts.items files) result (wavs_opened names.now files)) }
    ensures inside { IfSome (S.held shelf.old) (λ files. IfOk result (λ parts. AreInFiles parts.items files)) }
    ensures named { IfOk result (λ parts. part_names parts.items ≡ names.now) }
    ensures short { IfOk result (λ parts. All IsShort parts.items) }
    ensures ends { IfOk result (λ parts. All EndsInRange parts.items) }
    ensures only { OnlyReads S.Shelf shelf.old shelf.new }
    ensures cause { OpeningHasCause (S.faults shelf.old) (S.faults shelf.new) result }
    ensures taken { OpeningTakes (S.held shelf.old) (lengths_of names.now) result (S.taken shelf.old) (S.taken shelf.new) }
{
    let mut parts = Vec::new(alloc);
    for name in names {
        let part = open_part(alloc, shelf, name.as_str())?;
        if parts.push(part).is_err() {
            return Err(RipFail::Oom);
        }
    }
    Ok(parts)
}
