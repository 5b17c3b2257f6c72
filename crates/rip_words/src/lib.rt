//! The words of the command line: the command that they are, or the index of the first that breaks a rule.
#![tactic(auto)]

ghost use Rattle.std.specs.Prelude.{◌≡◌, true, ◌<◌, ◌≤◌, ◌^◌, ◌+◌, IfOk, IfSome, IsOkUnless};
ghost use Rattle.std.specs.Str.Parse.{without_leading_sign};
ghost use Rattle.std.specs.String.{string_bytes};
ghost use Rattle.column_map.specs.Columns.{IsOffset};
ghost use Rattle.rip_basics.specs.FileNames.{ends_in_slash};
ghost use Rattle.rip_words.specs.Command.{MayRun, NamesMayStand, ReadsWords, TrialIsInRange, batch_words, command_reading, command_words, hits_of, input_words, is_folder, is_name, last_option, no_word, npar_option, number_of, offset_in, one_command, request_reading, offset_of, offset_option, option_words, out_words, record_words, sectors_of, seed_of, sums_words, texts, trial_words, verb_of, verb_words, file_words, folder_word, join_words, merge_words, split_words};

mod naming;

pub use column_map::Npar;
pub use naming::name_in_folder;
use naming::{ends_in_slash, is_quotable};
use rip_basics::Name;
use std::alloc::Global;

/// A command that is run by itself.
#[derive(Debug, Drop, PartialEq, Eq)]
pub enum Command {
    /// Stores the parity of the rip INPUT under the name REC.
    Register {
        input: Name,
        rec: Name,
        npar: Npar,
    },
    /// Sees whether the rip INPUT is near the record REC, at one offset in samples or at any.
    Verify {
        input: Name,
        rec: Name,
        offset: Option<i32>,
    },
    /// Lists the offsets at which the rip INPUT is near the record REC.
    Offsets {
        input: Name,
        rec: Name,
    },
    /// Writes the rip INPUT, mended by the record REC, under the name OUT.
    Repair {
        input: Name,
        rec: Name,
        to: Name,
        offset: Option<i32>,
    },
    /// Gives the record REC, which has no seal, the seal of the rip INPUT, which has no wrong word.
    Upgrade {
        input: Name,
        rec: Name,
    },
    /// Prints the matches of the sums of the rip INPUT with the response RESP, which is a name, or a folder that ends in `/`.
    MatchSums {
        input: Name,
        resp: Name,
    },
    /// Prints the ids of the rip INPUT and the sums of its tracks.
    Sums {
        input: Name,
    },
    /// Writes each track of the rip INPUT as a file of its own in FOLDER, and their sheet.
    Split {
        input: Name,
        folder: Name,
    },
    /// Writes the rip INPUT as one file under the name OUT, and its sheet beside it.
    Join {
        input: Name,
        to: Name,
    },
    /// Lists the good records of the store FOLDER.
    ListStore {
        folder: Name,
    },
    /// Looks for bad records in the store FOLDER.
    CheckStore {
        folder: Name,
    },
    /// Adds the good records of the store FROM to the store TO.
    MergeStores {
        from: Name,
        to: Name,
    },
    /// Makes an image of so many sectors from a seed, and of it a rip that is `shift` samples late and has so many words
    /// made wrong, and mends that rip.
    Trial {
        sectors: u32,
        seed: u32,
        shift: i32,
        hits: u32,
    },
}

/// What the words ask for.
#[derive(Debug, Drop, PartialEq, Eq)]
pub enum Request {
    /// One command.
    One { command: Command },
    /// The commands of the list LIST, one after another.
    Batch { list: Name },
}

/// Why the words ask for nothing that can be done.
#[derive(Debug, Drop, PartialEq, Eq)]
pub enum WordsFail {
    /// The word with this index breaks a rule, or is missing.
    Usage { word: u32 },
    /// Memory was wanting.
    Oom,
}

// What the own word of a command asks for that has two names after it: INPUT, and REC or RESP.
#[derive(Clone, Copy)]
enum Verb {
    Register,
    Verify,
    Offsets,
    Repair,
    Upgrade,
    MatchSums,
}

// A word that names a file isn't empty and doesn't begin with `-`, which begins an option.
fn is_name(word: &[u8]) -> bool
    ensures { result ≡ is_name word.now }
{
    match word {
        [] => false,
        [first, ..] => *first != b'-',
    }
}

fn name_of(alloc: Global, word: &String) -> Result<Name, WordsFail>
    ensures name { IfOk result (λ name. name ≡ string_bytes word.now) }
    ensures oom { IsOkUnless result WordsFail.Oom }
{
    match String::from_str(alloc, word.as_str()) {
        Ok(text) => Ok(Name::of(text)),
        Err(_) => Err(WordsFail::Oom),
    }
}

// The option that says how many parity words there are to be.
fn npar_option(word: &str) -> Option<Npar>
    ensures { result ≡ npar_option word.now }
{
    match word {
        "--npar=4" => Some(Npar::Four),
        "--npar=8" => Some(Npar::Eight),
        "--npar=16" => Some(Npar::Sixteen),
        "--npar=32" => Some(Npar::ThirtyTwo),
        _ => None,
    }
}

// The digits of a number, after its sign.
fn without_sign(number: &[u8]) -> &[u8]
    ensures { result.now ≡ without_leading_sign number.now }
{
    match number {
        [b'-' | b'+', digits @ ..] => digits,
        _ => number,
    }
}

// The most digits that an offset is written with, and the most samples that it counts, early or late.
const MOST_DIGITS: usize = 4;

const FARTHEST: i32 = 5879;

// An offset as it is written, in samples.
fn offset_of(number: &str) -> Option<i32>
    ensures value { result ≡ offset_of number.now }
    ensures range { IfSome result IsOffset }
{
    if without_sign(number.as_bytes()).len() > MOST_DIGITS {
        return None;
    }
    match number.parse::<i32>() {
        Ok(offset) if offset >= -FARTHEST && offset <= FARTHEST => Some(offset),
        _ => None,
    }
}

// The option that says at which offset the rip is.
fn offset_option(word: &str) -> Option<i32>
    ensures value { result ≡ offset_option word.now }
    ensures range { IfSome result IsOffset }
{
    offset_of(word.strip_prefix("--offset=")?)
}

// A number as it is written: in one to `digits` decimal digits, from `least` to `most`.
fn number_of(word: &str, digits: usize, least: u32, most: u32) -> Option<u32>
    ensures value { result ≡ number_of digits least most word.now }
    ensures least { IfSome result (λ number. least ≤ number) }
    ensures most { IfSome result (λ number. number ≤ most) }
{
    if word.len() > digits || word.starts_with("+") {
        return None;
    }
    match word.parse::<u32>() {
        Ok(number) if number >= least && number <= most => Some(number),
        _ => None,
    }
}

// SECTORS of a trial.
fn sectors_of(word: &str) -> Option<u32>
    ensures value { result ≡ sectors_of word.now }
    ensures least { IfSome result (λ sectors. 30 ≤ sectors) }
    ensures most { IfSome result (λ sectors. sectors ≤ 9000) }
{
    number_of(word, 4, 30, 9000)
}

// SEED of a trial: any number of 32 bits.
fn seed_of(word: &str) -> Option<u32>
    ensures { result ≡ seed_of word.now }
{
    number_of(word, 10, 0, u32::MAX)
}

// HITS of a trial: at most five words in each column.
fn hits_of(word: &str) -> Option<u32>
    ensures value { result ≡ hits_of word.now }
    ensures most { IfSome result (λ hits. hits ≤ 58800) }
{
    number_of(word, 5, 0, 58_800)
}

// The option that stands at this index, once it was read: nothing may stand after it.
fn last_option<A: Copy>(at: u32, option: Option<A>, rest: &[String]) -> Result<Option<A>, WordsFail>
    requires { at + 1 < 2 ^ 32 }
    ensures value { ReadsWords result (last_option at option (texts rest.now)) }
    ensures kept { IfOk result (λ kept. kept ≡ option) }
{
    match (option, rest) {
        (None, _) => Err(WordsFail::Usage { word: at }),
        (Some(_), []) => Ok(option),
        (Some(_), [_, ..]) => Err(WordsFail::Usage { word: at + 1 }),
    }
}

// The words from this index on, where an option on the parity words may stand.
fn read_npar(at: u32, words: &[String]) -> Result<Option<Npar>, WordsFail>
    requires { at + 1 < 2 ^ 32 }
    ensures { ReadsWords result (option_words npar_option at (texts words.now)) }
{
    match words {
        [] => Ok(None),
        [option, rest @ ..] => last_option(at, npar_option(option.as_str()), rest),
    }
}

// The words from this index on, where an offset may stand.
fn read_offset(at: u32, words: &[String]) -> Result<Option<i32>, WordsFail>
    requires { at + 1 < 2 ^ 32 }
    ensures value { ReadsWords result (option_words offset_option at (texts words.now)) }
    ensures range { IfOk result (λ offset. IfSome offset IsOffset) }
{
    match words {
        [] => Ok(None),
        [option, rest @ ..] => last_option(at, offset_option(option.as_str()), rest),
    }
}

// The words of `repair` after INPUT and REC.
fn read_out(
    alloc: Global,
    input: &String,
    rec: &String,
    words: &[String],
) -> Result<Command, WordsFail>
    ensures value { ReadsWords result (out_words (string_bytes input.now) (string_bytes rec.now) (texts words.now)) }
    ensures range { IfOk result (λ read. IfSome (offset_in read) IsOffset) }
    ensures trial { IfOk result TrialIsInRange }
    ensures names { IfOk result NamesMayStand }
{
    match words {
        [] => Err(WordsFail::Usage { word: 3 }),
        [to, rest @ ..] => {
            if !is_name(to.as_bytes()) {
                return Err(WordsFail::Usage { word: 3 });
            }
            let offset = read_offset(4, rest)?;
            Ok(Command::Repair {
                input: name_of(alloc, input)?,
                rec: name_of(alloc, rec)?,
                to: name_of(alloc, to)?,
                offset,
            })
        }
    }
}

// The words after INPUT and REC, or RESP.
fn read_options(
    alloc: Global,
    verb: Verb,
    input: &String,
    rec: &String,
    words: &[String],
) -> Result<Command, WordsFail>
    ensures value { ReadsWords result (command_words verb (string_bytes input.now) (string_bytes rec.now) (texts words.now)) }
    ensures range { IfOk result (λ read. IfSome (offset_in read) IsOffset) }
    ensures trial { IfOk result TrialIsInRange }
    ensures names { IfOk result NamesMayStand }
{
    match verb {
        Verb::Register => {
            let npar = read_npar(3, words)?.unwrap_or(Npar::Eight);
            Ok(Command::Register {
                input: name_of(alloc, input)?,
                rec: name_of(alloc, rec)?,
                npar,
            })
        }
        Verb::Verify => {
            let offset = read_offset(3, words)?;
            Ok(Command::Verify {
                input: name_of(alloc, input)?,
                rec: name_of(alloc, rec)?,
                offset,
            })
        }
        Verb::Offsets => {
            let input = name_of(alloc, input)?;
            let rec = name_of(alloc, rec)?;
            no_word(3, Command::Offsets { input, rec }, words)
        }
        Verb::Repair => read_out(alloc, input, rec, words),
        Verb::Upgrade => {
            let input = name_of(alloc, input)?;
            let rec = name_of(alloc, rec)?;
            no_word(3, Command::Upgrade { input, rec }, words)
        }
        Verb::MatchSums => {
            let input = name_of(alloc, input)?;
            let resp = name_of(alloc, rec)?;
            no_word(3, Command::MatchSums { input, resp }, words)
        }
    }
}

// The words after INPUT.
fn read_record(
    alloc: Global,
    verb: Verb,
    input: &String,
    words: &[String],
) -> Result<Command, WordsFail>
    ensures value { ReadsWords result (record_words verb (string_bytes input.now) (texts words.now)) }
    ensures range { IfOk result (λ read. IfSome (offset_in read) IsOffset) }
    ensures trial { IfOk result TrialIsInRange }
    ensures names { IfOk result NamesMayStand }
{
    match words {
        [] => Err(WordsFail::Usage { word: 2 }),
        [rec, rest @ ..] => {
            if !is_name(rec.as_bytes()) {
                return Err(WordsFail::Usage { word: 2 });
            }
            read_options(alloc, verb, input, rec, rest)
        }
    }
}

// The words after a command's own.
fn read_input(alloc: Global, verb: Verb, words: &[String]) -> Result<Command, WordsFail>
    ensures value { ReadsWords result (input_words verb (texts words.now)) }
    ensures range { IfOk result (λ read. IfSome (offset_in read) IsOffset) }
    ensures trial { IfOk result TrialIsInRange }
    ensures names { IfOk result NamesMayStand }
{
    match words {
        [] => Err(WordsFail::Usage { word: 1 }),
        [input, rest @ ..] => {
            if !is_name(input.as_bytes()) {
                return Err(WordsFail::Usage { word: 1 });
            }
            read_record(alloc, verb, input, rest)
        }
    }
}

// The command, where no word stands from this index on.
fn no_word(at: u32, command: Command, words: &[String]) -> Result<Command, WordsFail>
    ensures value { ReadsWords result (no_word at command (texts words.now)) }
    ensures kept { IfOk result (λ read. read ≡ command) }
{
    match words {
        [] => Ok(command),
        [_, ..] => Err(WordsFail::Usage { word: at }),
    }
}

// The words of `sums`: INPUT.
fn read_sums(alloc: Global, words: &[String]) -> Result<Command, WordsFail>
    ensures value { ReadsWords result (sums_words (texts words.now)) }
    ensures range { IfOk result (λ read. IfSome (offset_in read) IsOffset) }
    ensures trial { IfOk result TrialIsInRange }
    ensures names { IfOk result NamesMayStand }
{
    match words {
        [] => Err(WordsFail::Usage { word: 1 }),
        [input, rest @ ..] => {
            if !is_name(input.as_bytes()) {
                return Err(WordsFail::Usage { word: 1 });
            }
            let input = name_of(alloc, input)?;
            no_word(2, Command::Sums { input }, rest)
        }
    }
}

// A word that names a folder names a file too, and ends in `/`.
fn is_folder(word: &[u8]) -> bool
    ensures { result ≡ is_folder word.now }
{
    is_name(word) && ends_in_slash(word)
}

// The last word, which is at this index: a folder.
fn read_folder(alloc: Global, at: u32, words: &[String]) -> Result<Name, WordsFail>
    requires { at + 1 < 2 ^ 32 }
    ensures value { ReadsWords result (folder_word at (texts words.now)) }
    ensures slash { IfOk result (λ folder. ends_in_slash folder ≡ true) }
{
    match words {
        [] => Err(WordsFail::Usage { word: at }),
        [folder, rest @ ..] => {
            if !is_folder(folder.as_bytes()) {
                return Err(WordsFail::Usage { word: at });
            }
            if !rest.is_empty() {
                return Err(WordsFail::Usage { word: at + 1 });
            }
            name_of(alloc, folder)
        }
    }
}

// The words of `merge`: FROM and TO.
fn read_merge(alloc: Global, words: &[String]) -> Result<Command, WordsFail>
    ensures value { ReadsWords result (merge_words (texts words.now)) }
    ensures range { IfOk result (λ read. IfSome (offset_in read) IsOffset) }
    ensures trial { IfOk result TrialIsInRange }
    ensures names { IfOk result NamesMayStand }
{
    match words {
        [] => Err(WordsFail::Usage { word: 1 }),
        [from, rest @ ..] => {
            if !is_folder(from.as_bytes()) {
                return Err(WordsFail::Usage { word: 1 });
            }
            let to = read_folder(alloc, 2, rest)?;
            let from = name_of(alloc, from)?;
            Ok(Command::MergeStores { from, to })
        }
    }
}

// The words of `split`: INPUT and FOLDER.
fn read_split(alloc: Global, words: &[String]) -> Result<Command, WordsFail>
    ensures value { ReadsWords result (split_words (texts words.now)) }
    ensures range { IfOk result (λ read. IfSome (offset_in read) IsOffset) }
    ensures trial { IfOk result TrialIsInRange }
    ensures names { IfOk result NamesMayStand }
{
    match words {
        [] => Err(WordsFail::Usage { word: 1 }),
        [input, rest @ ..] => {
            if !is_name(input.as_bytes()) {
                return Err(WordsFail::Usage { word: 1 });
            }
            let folder = read_folder(alloc, 2, rest)?;
            let input = name_of(alloc, input)?;
            Ok(Command::Split { input, folder })
        }
    }
}

// The words after INPUT of `join`: OUT.
fn read_file(alloc: Global, input: &String, words: &[String]) -> Result<Command, WordsFail>
    ensures value { ReadsWords result (file_words (string_bytes input.now) (texts words.now)) }
    ensures range { IfOk result (λ read. IfSome (offset_in read) IsOffset) }
    ensures trial { IfOk result TrialIsInRange }
    ensures names { IfOk result NamesMayStand }
{
    match words {
        [] => Err(WordsFail::Usage { word: 2 }),
        [to, rest @ ..] => {
            if !is_name(to.as_bytes()) || !is_quotable(name_in_folder(to.as_str()).as_bytes()) {
                return Err(WordsFail::Usage { word: 2 });
            }
            let input = name_of(alloc, input)?;
            let to = name_of(alloc, to)?;
            no_word(3, Command::Join { input, to }, rest)
        }
    }
}

// The words of `join`: INPUT and OUT.
fn read_join(alloc: Global, words: &[String]) -> Result<Command, WordsFail>
    ensures value { ReadsWords result (join_words (texts words.now)) }
    ensures range { IfOk result (λ read. IfSome (offset_in read) IsOffset) }
    ensures trial { IfOk result TrialIsInRange }
    ensures names { IfOk result NamesMayStand }
{
    match words {
        [] => Err(WordsFail::Usage { word: 1 }),
        [input, rest @ ..] => {
            if !is_name(input.as_bytes()) {
                return Err(WordsFail::Usage { word: 1 });
            }
            read_file(alloc, input, rest)
        }
    }
}

// The words of `trial`: SECTORS, SEED, SHIFT and HITS.
fn read_trial(words: &[String]) -> Result<Command, WordsFail>
    ensures value { ReadsWords result (trial_words (texts words.now)) }
    ensures range { IfOk result (λ read. IfSome (offset_in read) IsOffset) }
    ensures trial { IfOk result TrialIsInRange }
    ensures names { IfOk result NamesMayStand }
{
    let [sectors, words @ ..] = words else {
        return Err(WordsFail::Usage { word: 1 });
    };
    let Some(sectors) = sectors_of(sectors.as_str()) else {
        return Err(WordsFail::Usage { word: 1 });
    };
    let [seed, words @ ..] = words else {
        return Err(WordsFail::Usage { word: 2 });
    };
    let Some(seed) = seed_of(seed.as_str()) else {
        return Err(WordsFail::Usage { word: 2 });
    };
    let [shift, words @ ..] = words else {
        return Err(WordsFail::Usage { word: 3 });
    };
    let Some(shift) = offset_of(shift.as_str()) else {
        return Err(WordsFail::Usage { word: 3 });
    };
    let [hits, words @ ..] = words else {
        return Err(WordsFail::Usage { word: 4 });
    };
    let Some(hits) = hits_of(hits.as_str()) else {
        return Err(WordsFail::Usage { word: 4 });
    };
    no_word(
        5,
        Command::Trial {
            sectors,
            seed,
            shift,
            hits,
        },
        words,
    )
}

// What the own word of a command with two names asks for.
#[tactic(auto, unfolding(crate::specs::Command::verb_of))]
fn verb_of(word: &str) -> Option<Verb>
    ensures { result ≡ verb_of word.now }
{
    match word {
        "register" => Some(Verb::Register),
        "verify" => Some(Verb::Verify),
        "offsets" => Some(Verb::Offsets),
        "repair" => Some(Verb::Repair),
        "upgrade" => Some(Verb::Upgrade),
        "match" => Some(Verb::MatchSums),
        _ => None,
    }
}

// The words after the first, of a command with two names.
fn read_verb(alloc: Global, verb: Option<Verb>, words: &[String]) -> Result<Command, WordsFail>
    ensures value { ReadsWords result (verb_words verb (texts words.now)) }
    ensures range { IfOk result (λ read. IfSome (offset_in read) IsOffset) }
    ensures trial { IfOk result TrialIsInRange }
    ensures names { IfOk result NamesMayStand }
{
    match verb {
        Some(verb) => read_input(alloc, verb, words),
        None => Err(WordsFail::Usage { word: 0 }),
    }
}

/// The command that the words are: any but `batch`, which no list may hold. `Usage` comes exactly where the grammar refuses,
/// with the index of the first word that breaks a rule, or the number of words where one is missing. An offset that was read
/// is from -5,879 to 5,879, and so is the shift of a trial; its sectors are from 30 to 9,000, and its hits at most 58,800.
/// The folder of `split` ends in `/`, as those of `list`, `check` and `merge` do, and the name of `join`'s file may stand in
/// a sheet.
pub fn read_command(alloc: Global, words: &[String]) -> Result<Command, WordsFail>
    ensures value { ReadsWords result (command_reading (texts words.now)) }
    ensures offsets { IfOk result (λ read. IfSome (offset_in read) IsOffset) }
    ensures trials { IfOk result TrialIsInRange }
    ensures names { IfOk result NamesMayStand }
{
    match words {
        [] => Err(WordsFail::Usage { word: 0 }),
        [first, rest @ ..] => match first.as_str() {
            "sums" => read_sums(alloc, rest),
            "split" => read_split(alloc, rest),
            "join" => read_join(alloc, rest),
            "list" => Ok(Command::ListStore {
                folder: read_folder(alloc, 1, rest)?,
            }),
            "check" => Ok(Command::CheckStore {
                folder: read_folder(alloc, 1, rest)?,
            }),
            "merge" => read_merge(alloc, rest),
            "trial" => read_trial(rest),
            word => read_verb(alloc, verb_of(word), rest),
        },
    }
}

// The request for the one command that the words are.
fn one_command(alloc: Global, words: &[String]) -> Result<Request, WordsFail>
    ensures value { ReadsWords result (one_command (command_reading (texts words.now))) }
    ensures runs { IfOk result MayRun }
{
    Ok(Request::One {
        command: read_command(alloc, words)?,
    })
}

// The words of `batch`: LIST.
fn read_batch(alloc: Global, words: &[String]) -> Result<Request, WordsFail>
    ensures value { ReadsWords result (batch_words (texts words.now)) }
    ensures runs { IfOk result MayRun }
{
    match words {
        [] => Err(WordsFail::Usage { word: 1 }),
        [list, rest @ ..] => {
            if !is_name(list.as_bytes()) {
                return Err(WordsFail::Usage { word: 1 });
            }
            if !rest.is_empty() {
                return Err(WordsFail::Usage { word: 2 });
            }
            Ok(Request::Batch {
                list: name_of(alloc, list)?,
            })
        }
    }
}

/// What the words ask for: one command, or a list of commands. `Usage` comes exactly where the grammar refuses, with the index
/// of the first word that breaks a rule, or the number of words where one is missing. A command that was read has its numbers
/// in range and names that may stand, as `read_command` says.
pub fn read_words(alloc: Global, words: &[String]) -> Result<Request, WordsFail>
    ensures value { ReadsWords result (request_reading (texts words.now)) }
    ensures runs { IfOk result MayRun }
{
    match words {
        [] => Err(WordsFail::Usage { word: 0 }),
        [first, rest @ ..] => {
            if first.as_str() == "batch" {
                read_batch(alloc, rest)
            } else {
                one_command(alloc, words)
            }
        }
    }
}
