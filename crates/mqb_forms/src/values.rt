ghost use Rattle.std.specs.Prelude.{◌≡◌, ◌==◌, ◌≤◌, IfOk};
ghost use Rattle.std.specs.List.{ends_with};
ghost use Rattle.mqb_forms.specs.Faults.{Reads};
ghost use Rattle.mqb_forms.specs.Values.{moment_of, packet_of, quota_of, priority_of, window_of};
ghost use Rattle.mqb_forms.specs.Values.{call_of, roll_of, choice_of, mode_of, pick_of, name_of};
ghost use Rattle.mqb_forms.specs.Values.{guid_of, place_of};

use crate::faults::{LineFault, LineKind};
use crate::words::{is_word, number_in};
use mqb_base::{Guid, MAX_PRIORITY, Name, NameError, Place};
use mqb_outside::{Mode, Pick};
use std::alloc::Global;
use uuid::Uuid;

/// A moment, in seconds since 1970.
pub fn moment_of(word: &[u8]) -> Result<u32, LineKind>
    ensures { result ≡ moment_of word.now }
{
    number_in(0, u32::MAX, word)
}

/// The number of a packet, from 1.
pub fn packet_of(word: &[u8]) -> Result<u32, LineKind>
    ensures { result ≡ packet_of word.now }
{
    number_in(1, u32::MAX, word)
}

/// How many messages a queue holds at most.
pub fn quota_of(word: &[u8]) -> Result<u32, LineKind>
    ensures { result ≡ quota_of word.now }
{
    number_in(0, u32::MAX, word)
}

/// A priority, from 0 to 7.
pub fn priority_of(word: &[u8]) -> Result<u8, LineKind>
    ensures priority { result ≡ priority_of word.now }
    ensures most { IfOk result (λ n. n ≤ 7) }
{
    let priority = number_in(0, u32::from(MAX_PRIORITY), word)?;
    Ok(priority as u8)
}

/// A window, from 1.
pub fn window_of(word: &[u8]) -> Result<u16, LineKind>
    ensures { result ≡ window_of word.now }
{
    let window = number_in(1, u32::from(u16::MAX), word)?;
    Ok(window as u16)
}

const MAX_CALL: u32 = 1000;

/// The number of a device call, from 1 to `MAX_CALL`.
pub fn call_of(word: &[u8]) -> Result<u32, LineKind>
    ensures { result ≡ call_of word.now }
{
    number_in(1, MAX_CALL, word)
}

const MAX_ROLL: u32 = 65_535;

/// The count at which sequences are full, from 1 to `MAX_ROLL`.
pub fn roll_of(word: &[u8]) -> Result<u32, LineKind>
    ensures { result ≡ roll_of word.now }
{
    number_in(1, MAX_ROLL, word)
}

/// Whether a word is the first of these two and not the second.
#[tactic(auto, unfolding(crate::specs::Values::choice_of))]
pub fn choice_of(first: &[u8], second: &[u8], word: &[u8]) -> Result<bool, LineKind>
    ensures { result ≡ choice_of first.now second.now word.now }
{
    if is_word(word, first) {
        return Ok(true);
    }
    if is_word(word, second) {
        return Ok(false);
    }
    Err(LineKind::Value)
}

/// How an armed disk goes wrong.
#[tactic(auto, unfolding(crate::specs::Values::mode_of))]
pub fn mode_of(word: &[u8]) -> Result<Mode, LineKind>
    ensures { result ≡ mode_of word.now }
{
    if is_word(word, b"stop") {
        return Ok(Mode::Stop);
    }
    if is_word(word, b"fail") {
        return Ok(Mode::Fail);
    }
    Err(LineKind::Value)
}

/// Which image a restarted disk has.
#[tactic(auto, unfolding(crate::specs::Values::pick_of))]
pub fn pick_of(word: &[u8]) -> Result<Pick, LineKind>
    ensures { result ≡ pick_of word.now }
{
    if is_word(word, b"old") {
        return Ok(Pick::Old);
    }
    if is_word(word, b"new") {
        return Ok(Pick::New);
    }
    if is_word(word, b"half") {
        return Ok(Pick::Half);
    }
    if is_word(word, b"ones") {
        return Ok(Pick::Ones);
    }
    Err(LineKind::Value)
}

/// A name of a queue or a host.
#[tactic(auto, unfolding(crate::specs::Values::name_of))]
pub fn name_of(alloc: Global, word: &[u8]) -> Result<Name, LineFault>
    ensures { Reads (name_of word.now) result }
{
    match Name::new(alloc, word) {
        Ok(name) => Ok(name),
        Err(NameError::Memory) => Err(LineFault::Memory),
        Err(_) => Err(LineFault::VALUE),
    }
}

/// A GUID in its hyphenated form alone, in either case.
#[tactic(auto, unfolding(crate::specs::Values::guid_of))]
pub fn guid_of(word: &[u8]) -> Result<Guid, LineKind>
    ensures { result ≡ guid_of word.now }
{
    if word.len() != 36 {
        return Err(LineKind::Value);
    }
    match Uuid::try_parse_ascii(word) {
        Ok(uuid) => Ok(Guid(uuid.into_bytes())),
        Err(_) => Err(LineKind::Value),
    }
}

const JOURNAL: &[u8] = b";journal";

/// A place of a manager.
#[tactic(auto, unfolding(crate::specs::Values::place_of))]
pub fn place_of(alloc: Global, word: &[u8]) -> Result<Place, LineFault>
    ensures { Reads (place_of word.now) result }
{
    if is_word(word, b";deadletter") {
        return Ok(Place::Dead);
    }
    if is_word(word, b";deadxact") {
        return Ok(Place::DeadXact);
    }
    if is_word(word, JOURNAL) {
        return Ok(Place::Journal);
    }
    match word.strip_suffix(JOURNAL) {
        Some(name) => Ok(Place::JournalOf(name_of(alloc, name)?)),
        None => Ok(Place::Queue(name_of(alloc, word)?)),
    }
}
