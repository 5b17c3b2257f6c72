// The calls that a shelf has served, and the names that are unsettled after them.
ghost use Rattle.std.specs.Prelude.{◌≡◌, ◌+◌, ◌-◌, ◌^◌, ◌≤◌, ◌<◌, ◌++◌, ◌∷◌, [], length, IfOk, OnOk, IfSome, OnSome, position, not, vec_capacity, vec_len, is_ok};
ghost use Rattle.std.specs.Str.{bytes_eq};
ghost use Rattle.std.specs.Option.{is_some};
ghost use Rattle.rip_outside.specs.Crashes.{is_among, without};
ghost use Rattle.rip_memory.specs.Served.{with, unsettled_by};
ghost use Rattle.rip_memory.specs.Filling.{first_half};
ghost use Rattle.rip_memory.specs.KeepsCalls.{IsUnsettledBy};

use rip_outside::{Name, Oom};
use std::alloc::Global;
use std::marker::Model;

/// Bytes that were added to a file.
#[derive(Debug, Drop)]
pub struct Bytes {
    list: Vec<u8>,
}

impl Model for Bytes {
    ghost use Rattle.std.specs.Prelude.{List, ℕ};

    ghost Value = { List ℕ };

    ghost view = { λ bytes. bytes.list.items };
}

impl Bytes {
    /// A copy of these bytes.
    pub fn copy(alloc: Global, bytes: &[u8]) -> Result<Self, Oom>
        ensures { IfOk result (λ copied. copied ≡ bytes.now) }
    {
        match bytes.to_vec(alloc) {
            Ok(list) => Ok(Bytes { list }),
            Err(_) => Err(Oom),
        }
    }

    /// Their first half, rounded down. It takes no memory.
    pub fn first_half(self) -> Self
        ensures { result ≡ first_half self }
    {
        let mut list = self.list;
        list.truncate(list.len() / 2);
        Bytes { list }
    }

    /// The bytes.
    pub fn as_slice(&self) -> &[u8]
        ensures { result.now ≡ self.now }
    {
        self.list.as_slice()
    }
}

/// A call that was served, and what it did.
#[derive(Debug, Drop)]
pub enum Served {
    /// The name was made to hold no bytes, or the call failed and changed nothing.
    Make { name: Name, done: bool },
    /// These bytes were added to the name's file.
    Append { name: Name, bytes: Bytes },
    /// The name was settled.
    Sync { name: Name },
    /// The file was given another name, or the call failed and changed nothing.
    Rename { from: Name, to: Name, done: bool },
}

/// Whether a name is one of these.
pub fn has_name(names: &[Name], name: &str) -> bool
    ensures { result ≡ is_among name.now names.now }
{
    names.iter().any(|one| one.as_str() == name)
}

/// Adds a name, unless it is there. There must be room for it.
pub fn add_name(names: &mut Vec<Name>, name: Name)
    requires { vec_len names.old < vec_capacity names.old }
    ensures names { names.new.items ≡ with name names.old.items }
    ensures more { vec_len names.new ≤ vec_len names.old + 1 }
{
    if has_name(names, name.as_str()) {
        return;
    }
    let Ok(()) = names.push(name) else {
        unreachable!()
    };
}

// Where a name stands first.
fn place_of_name(names: &[Name], name: &str) -> Option<usize>
    ensures { result ≡ position (λ one. bytes_eq one name.now) names.now }
{
    names.iter().position(|one| one.as_str() == name)
}

// Takes a name out of the list, wherever it stands.
fn drop_name(names: &mut Vec<Name>, name: &str)
    ensures names { names.new.items ≡ without name.now names.old.items }
    ensures fewer { vec_len names.new ≤ vec_len names.old }
{
    names.retain(|one| one.as_str() != name);
}

/// Takes a name out of the list, and answers it where it was there.
pub fn take_name(names: &mut Vec<Name>, name: &str) -> Option<Name>
    ensures names { names.new.items ≡ without name.now names.old.items }
    ensures found { IfSome result (λ found. found ≡ name.now) }
    ensures some { is_some result ≡ is_among name.now names.old.items }
    ensures fewer { OnSome result (vec_len names.new < vec_len names.old) }
{
    let Some(i) = place_of_name(names, name) else {
        return None;
    };
    let found = names.remove(i);
    drop_name(names, name);
    Some(found)
}

/// Adds a call. There must be room for it.
pub fn add_call(calls: &mut Vec<Served>, call: Served)
    requires { vec_len calls.old < vec_capacity calls.old }
    ensures calls { calls.new.items ≡ calls.old.items ++ call ∷ [] }
    ensures room { vec_capacity calls.old ≤ vec_capacity calls.new }
    ensures more { vec_len calls.new ≡ vec_len calls.old + 1 }
{
    let Ok(()) = calls.push(call) else {
        unreachable!()
    };
}

/// Takes the memory for a call's record, for the records of the syncs that may settle what is unsettled, and for one that
/// may settle one name more. It answers Oom too where so many records would be too many.
pub fn take_room(calls: &mut Vec<Served>, unsettled: &mut Vec<Name>) -> Result<(), Oom>
    requires { length calls.old.items + length unsettled.old.items < 2 ^ 32 }
    ensures calls { calls.new.items ≡ calls.old.items }
    ensures unsettled { unsettled.new.items ≡ unsettled.old.items }
    ensures kept { vec_capacity calls.old ≤ vec_capacity calls.new }
    ensures records { OnOk result (vec_len calls.new + vec_len unsettled.new + 2 ≤ vec_capacity calls.new) }
    ensures names { OnOk result (vec_len unsettled.new < vec_capacity unsettled.new) }
    ensures few { OnOk result (length calls.new.items + length unsettled.new.items + 2 < 2 ^ 32) }
{
    let more = unsettled.len() + 2;
    if calls.len() + more > u32::MAX as usize {
        return Err(Oom);
    }
    if calls.reserve(more).is_err() || unsettled.reserve(1).is_err() {
        return Err(Oom);
    }
    Ok(())
}

/// Changes the list of unsettled names as a call does. Where the call makes a name unsettled, it is given a second time.
pub fn unsettle(names: &mut Vec<Name>, call: &Served, entry: Name)
    requires entry { IsUnsettledBy call.now entry }
    requires room { vec_len names.old < vec_capacity names.old }
    ensures names { names.new.items ≡ unsettled_by call.now names.old.items }
    ensures more { vec_len names.new ≤ vec_len names.old + 1 }
{
    match call {
        Served::Make { .. } | Served::Append { .. } => add_name(names, entry),
        Served::Sync { name } => drop_name(names, name.as_str()),
        Served::Rename { from, to, done } => {
            if has_name(names, from.as_str()) {
                add_name(names, entry);
            } else if *done {
                drop_name(names, to.as_str());
            }
        }
    }
}

/// Keeps a call and what it unsettles. The room for it must have been taken.
pub fn keep_call(calls: &mut Vec<Served>, unsettled: &mut Vec<Name>, call: Served, entry: Name)
    requires entry { IsUnsettledBy call entry }
    requires records { vec_len calls.old + vec_len unsettled.old + 2 ≤ vec_capacity calls.old }
    requires names { vec_len unsettled.old < vec_capacity unsettled.old }
    ensures calls { calls.new.items ≡ calls.old.items ++ call ∷ [] }
    ensures unsettled { unsettled.new.items ≡ unsettled_by call unsettled.old.items }
    ensures fits { length calls.new.items + length unsettled.new.items ≤ vec_capacity calls.new }
    ensures few { length calls.new.items + length unsettled.new.items ≤ length calls.old.items + length unsettled.old.items + 2 }
{
    unsettle(unsettled, &call, entry);
    add_call(calls, call);
}

/// What a call needs to be kept: its name, and the name once more for the sync that may settle it.
#[derive(Debug, Drop)]
pub struct Names {
    pub written: Name,
    pub entry: Name,
}

/// Takes all the memory that a call of this name needs to be kept, and that the syncs need. After want of memory nothing is
/// kept.
pub fn ready(
    alloc: Global,
    calls: &mut Vec<Served>,
    unsettled: &mut Vec<Name>,
    name: &str,
) -> Result<Names, Oom>
    requires { length calls.old.items + length unsettled.old.items < 2 ^ 32 }
    ensures name { IfOk result (λ names. (names.written ≡ name.now) × (names.entry ≡ name.now)) }
    ensures calls { calls.new.items ≡ calls.old.items }
    ensures unsettled { unsettled.new.items ≡ unsettled.old.items }
    ensures kept { vec_capacity calls.old ≤ vec_capacity calls.new }
    ensures records { OnOk result (vec_len calls.new + vec_len unsettled.new + 2 ≤ vec_capacity calls.new) }
    ensures names { OnOk result (vec_len unsettled.new < vec_capacity unsettled.new) }
    ensures few { OnOk result (length calls.new.items + length unsettled.new.items + 2 < 2 ^ 32) }
{
    let written = Name::copied(alloc, name)?;
    let entry = Name::copied(alloc, name)?;
    take_room(calls, unsettled)?;
    Ok(Names { written, entry })
}
