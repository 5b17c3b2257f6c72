//! The commands, one beside the other: what each comes to, a whole run of one, and the printing of what is told.
#![tactic(auto)]

mod printing;

ghost use Rattle.std.specs.Prelude.{◌≡◌, ◌⊎◌, ℕ, Result, Ok, IfSome, IfOk};
ghost use Rattle.rip_outside.specs.Files.{Files};
ghost use Rattle.rip_words.specs.declared.Command.{Command};
ghost use Rattle.engine_steps.specs.Outcome.{Outcome};
ghost use Rattle.std.specs.FinMap.{empty};
ghost use Rattle.rip_outside.specs.Causes.{NoneFell};
ghost use Rattle.rip_commands.specs.Look.{look};
ghost use Rattle.column_map.specs.Columns.{IsOffset};
ghost use Rattle.rip_words.specs.Command.{MayRunCommand, NamesMayStand, ReadsWords, TrialIsInRange, command_reading, offset_in, texts};
ghost use Rattle.rip_report.specs.Texts.{read_fault_line, refusal_line, write_fault_line};
ghost use Rattle.engine_steps.specs.Steps.{ComesToEnd, EndsWithCause, IsAnswered, Takes};
ghost use Rattle.rip_commands.specs.Outcomes.{IsCommandOutcome, IsOutcomeOf, IsMostTaken};
ghost use Rattle.engine_steps.specs.Outcome.{Leaves};
ghost use Rattle.engine_steps.specs.Crashing.{CrashSafe};
ghost use Rattle.rip_commands.specs.Ran.{AreFaultLines, Comes, FaultsOfCommand, IsTold, IsTrialRead, NeedsNoFile, Ran, TellsOf, ToldWithoutFiles, wanting, telling};

use cmd_join::join;
use cmd_match::match_sums;
use cmd_merge::merge;
use cmd_offsets::offsets;
use cmd_register::register;
use cmd_repair::repair;
use cmd_split::split;
use cmd_store::{check, list};
use cmd_sums::sums;
use cmd_trial::trial;
use cmd_upgrade::upgrade;
use cmd_verify::verify;
use engine_steps::{Answer, Stop};
pub use printing::{print, report};
use rip_outside::{Folder, Text};
use rip_report::{Status, refusal_text};
use rip_words::{Command, WordsFail, read_command};
use std::alloc::{AllocError, Global};

// Does a command, but for what is told of it.
fn perform<F: Folder>(alloc: Global, command: Command, shelf: &mut F) -> Result<Answer, Stop>
    requires offset { IfSome (offset_in command) IsOffset }
    requires trial { TrialIsInRange command }
    requires names { NamesMayStand command }
    ensures leaves { IfSome (F.held shelf.old) (λ files. Leaves (IsCommandOutcome command files) files result (F.held shelf.new)) }
    ensures crashes { CrashSafe (IsCommandOutcome command) (ComesToEnd result) (F.crashes shelf.old) (F.crashes shelf.new) }
    ensures cause { EndsWithCause (F.faults shelf.old) (F.faults shelf.new) result }
    ensures later { NoneFell (F.faults shelf.old) (F.faults shelf.new) }
    ensures reads { FaultsOfCommand (Ok command) result }
    ensures no_file { NeedsNoFile (Ok command) → Comes (IsCommandOutcome command empty) result }
    ensures untouched { IsTrialRead (Ok command) → shelf.new ≡ shelf.old }
    ensures taken { IfSome (F.held shelf.old) (λ files. (most : ℕ) → IsMostTaken (Ok command) files most → Takes most result (F.taken shelf.old) (F.taken shelf.new)) }
{
    match command {
        Command::Register { input, rec, npar } => {
            register(alloc, shelf, input.as_str(), rec.as_str(), npar)
        }
        Command::Verify { input, rec, offset } => {
            verify(alloc, shelf, input.as_str(), rec.as_str(), offset)
        }
        Command::Offsets { input, rec } => offsets(alloc, shelf, input.as_str(), rec.as_str()),
        Command::Repair {
            input,
            rec,
            to,
            offset,
        } => repair(
            alloc,
            shelf,
            input.as_str(),
            rec.as_str(),
            to.as_str(),
            offset,
        ),
        Command::Upgrade { input, rec } => upgrade(alloc, shelf, input.as_str(), rec.as_str()),
        Command::MatchSums { input, resp } => {
            match_sums(alloc, shelf, input.as_str(), resp.as_str())
        }
        Command::Sums { input } => sums(alloc, shelf, input.as_str()),
        Command::Split { input, folder } => split(alloc, shelf, input.as_str(), folder.as_str()),
        Command::Join { input, to } => join(alloc, shelf, input.as_str(), to.as_str()),
        Command::ListStore { folder } => list(alloc, shelf, folder.as_str()),
        Command::CheckStore { folder } => check(alloc, shelf, folder.as_str()),
        Command::MergeStores { from, to } => merge(alloc, shelf, from.as_str(), to.as_str()),
        Command::Trial {
            sectors,
            seed,
            shift,
            hits,
        } => Ok(Answer {
            status: Status::Done,
            text: trial(alloc, sectors, seed, shift, hits)?,
        }),
    }
}

// A line of its own.
fn line_of(alloc: Global, line: &str) -> Result<Text, AllocError>
    ensures { IfOk result (λ text. text ≡ line.now) }
{
    Ok(Text::of(String::from_str(alloc, line)?))
}

/// That memory was wanting, which is told without a text. It takes no memory.
pub fn wanting(alloc: Global) -> Answer
    ensures { result ≡ wanting }
{
    Answer {
        status: Status::WantOfMemory,
        text: Text::of(String::new(alloc)),
    }
}

/// A refusal, told by its line; or that memory was wanting for the line.
pub fn refuse(alloc: Global, status: Status) -> Answer
    ensures { (result ≡ telling status (refusal_line status)) ⊎ (result ≡ wanting) }
{
    match refusal_text(alloc, &status) {
        Ok(text) => Answer { status, text },
        Err(_) => wanting(alloc),
    }
}

/// The lines that are told of faults. They are made before a command begins, so that a fault is told even where no more memory is
/// to be had.
#[derive(Debug, Drop)]
pub struct FaultLines {
    /// The line of a call that reads.
    pub read: Text,
    /// The line of a call that writes.
    pub write: Text,
}

/// The lines that are told of faults, or want of memory.
pub fn fault_lines(alloc: Global) -> Result<FaultLines, AllocError>
    ensures { IfOk result AreFaultLines }
{
    Ok(FaultLines {
        read: line_of(alloc, "read fault\n")?,
        write: line_of(alloc, "write fault\n")?,
    })
}

/// What is told of what a command came to.
pub fn told_of(alloc: Global, came: Result<Answer, Stop>, lines: FaultLines) -> Answer
    requires { AreFaultLines lines }
    ensures { TellsOf came result }
{
    match came {
        Ok(answer) => answer,
        Err(Stop::Refused(status)) => refuse(alloc, status),
        Err(Stop::ReadFault { call }) => Answer {
            status: Status::ReadFault { call },
            text: lines.read,
        },
        Err(Stop::WriteFault { call }) => Answer {
            status: Status::WriteFault { call },
            text: lines.write,
        },
        Err(Stop::Oom) => wanting(alloc),
    }
}

/// Does a command but for its printing: a status, and the text that is to be printed.
#[tactic(auto, using(engine_steps::proofs::CrashingLaws::safe_none))]
pub fn tell<F: Folder>(alloc: Global, command: Command, shelf: &mut F) -> Answer
    requires offset { IfSome (offset_in command) IsOffset }
    requires trial { TrialIsInRange command }
    requires names { NamesMayStand command }
    ensures ran { Ran (Ok command) (look F.Shelf shelf.old) (look F.Shelf shelf.new) result }
    ensures crashes { CrashSafe (IsOutcomeOf (Ok command)) (IsAnswered result.status) (F.crashes shelf.old) (F.crashes shelf.new) }
    ensures no_file { ToldWithoutFiles (Ok command) result }
{
    let Ok(lines) = fault_lines(alloc) else {
        return wanting(alloc);
    };
    let came = perform(alloc, command, shelf);
    told_of(alloc, came, lines)
}

/// Does what the words of one command ask for, by what was read of them, but for the printing. Words that were refused are told so.
pub fn tell_asked<F: Folder>(
    alloc: Global,
    asked: Result<Command, WordsFail>,
    shelf: &mut F,
) -> Answer
    requires { IfOk asked MayRunCommand }
    ensures { (read : Result Command ℕ) → ReadsWords asked read → IsTold read (look F.Shelf shelf.old) (look F.Shelf shelf.new) (F.crashes shelf.old) (F.crashes shelf.new) result }
{
    match asked {
        Ok(command) => tell(alloc, command, shelf),
        Err(WordsFail::Usage { word }) => refuse(alloc, Status::Usage { word }),
        Err(WordsFail::Oom) => wanting(alloc),
    }
}

/// Does what these words of one command ask for, but for the printing.
pub fn tell_words<F: Folder>(alloc: Global, words: &[String], shelf: &mut F) -> Answer
    ensures { IsTold (command_reading (texts words.now)) (look F.Shelf shelf.old) (look F.Shelf shelf.new) (F.crashes shelf.old) (F.crashes shelf.new) result }
{
    tell_asked(alloc, read_command(alloc, words), shelf)
}

/// The law of outcomes: the words, by their reading, and the files have at most one outcome, which is a status, a text and
/// the names that are written with their bytes.
pub fn laws()
    ensures one_outcome { (read : Result Command ℕ) (files : Files) (a b : Outcome) → IsOutcomeOf read files a → IsOutcomeOf read files b → a ≡ b }
{}
