// The texts of a batch: its list that isn't read, the part of each disc, and the last line.
ghost use Rattle.std.specs.Prelude.{◌≡◌, ◌++◌, codes, IfOk};
ghost use Rattle.std.specs.String.{string_bytes};
ghost use Rattle.rip_report.specs.Kinds.{list_kind_text};
ghost use Rattle.rip_report.specs.Texts.{batch_line, disc_part, line};

use crate::texts::printed;
use batch_list::ListKind;
use rip_outside::{Oom, Text};
use std::alloc::{AllocError, Global};

// A list that isn't read.
pub(crate) fn list_line(alloc: Global, kind: ListKind) -> Result<String, AllocError>
    ensures { IfOk result (λ made. string_bytes made ≡ line (codes "list " ++ list_kind_text kind)) }
{
    match kind {
        ListKind::TooLong => String::from_str(alloc, "list TooLong\n"),
        ListKind::NotToml => String::from_str(alloc, "list NotToml\n"),
        ListKind::NoDiscs => String::from_str(alloc, "list NoDiscs\n"),
        ListKind::TooMany => String::from_str(alloc, "list TooMany\n"),
        ListKind::BadDisc { disc } => format!(in alloc; "list BadDisc {disc}\n"),
        ListKind::BadWords { disc, word } => {
            format!(in alloc; "list BadWords {disc} word {word}\n")
        }
    }
}

fn disc_lines(alloc: Global, disc: u32, number: u8, text: &str) -> Result<String, AllocError>
    ensures { IfOk result (λ made. string_bytes made ≡ disc_part disc number text.now) }
{
    format!(in alloc; "disc {disc} number {number}\n{text}")
}

fn batch_lines(alloc: Global, discs: u32, failed: u32) -> Result<String, AllocError>
    ensures { IfOk result (λ made. string_bytes made ≡ batch_line discs failed) }
{
    format!(in alloc; "batch discs {discs} failed {failed}\n")
}

/// What a batch tells of one disc: a line with the disc's number in the list, counted from 1, and with that of its status, and then
/// the disc's own text. Oom is want of memory.
pub fn disc_part(alloc: Global, disc: u32, number: u8, text: &str) -> Result<Text, Oom>
    ensures { IfOk result (λ part. part ≡ disc_part disc number text.now) }
{
    printed(disc_lines(alloc, disc, number, text))
}

/// The last line of a batch: how many discs the list has, and how many of them weren't done. Oom is want of memory.
pub fn batch_line(alloc: Global, discs: u32, failed: u32) -> Result<Text, Oom>
    ensures { IfOk result (λ text. text ≡ batch_line discs failed) }
{
    printed(batch_lines(alloc, discs, failed))
}
