ghost use Rattle.std.specs.Prelude.{◌≡◌, ◌<◌, map, IfOk};
ghost use Rattle.mqb_forms.specs.Faults.{Reads};
ghost use Rattle.mqb_words.specs.Values.{orders_of, connections_of, messages_of, count_in};
ghost use Rattle.mqb_words.specs.Values.{seconds_of, octet_of, address_from, address_of};
ghost use Rattle.mqb_words.specs.Values.{address_in, either_of, wait_in, identity_of};

use mqb_base::Identity;
use mqb_forms::{LineFault, LineKind, guid_of, name_of, number_in, parts};
use std::alloc::Global;

const MAX_ORDERS: u32 = 10_000;

pub(crate) fn orders_of(word: &[u8]) -> Result<u32, LineKind>
    ensures { result ≡ orders_of word.now }
{
    number_in(1, MAX_ORDERS, word)
}

const MAX_CONNECTIONS: u32 = 1_000_000;

pub(crate) fn connections_of(word: &[u8]) -> Result<u32, LineKind>
    ensures { result ≡ connections_of word.now }
{
    number_in(1, MAX_CONNECTIONS, word)
}

fn messages_of(word: &[u8]) -> Result<u32, LineKind>
    ensures { result ≡ messages_of word.now }
{
    number_in(1, u32::MAX, word)
}

/// The count of messages that the words are, or 1.
#[tactic(auto, unfolding(crate::specs::Values::count_in))]
pub(crate) fn count_in(words: &[&[u8]]) -> Result<u32, LineKind>
    ensures { result ≡ count_in (map (λ word. word.now) words.now) }
{
    match words {
        [] => Ok(1),
        [count] => messages_of(count),
        _ => Err(LineKind::Value),
    }
}

const SECONDS: u32 = 5;

const MAX_SECONDS: u32 = 3600;

pub(crate) fn seconds_of(word: &[u8]) -> Result<u32, LineKind>
    ensures { result ≡ seconds_of word.now }
{
    number_in(1, MAX_SECONDS, word)
}

fn octet_of(word: &[u8]) -> Result<u8, LineKind>
    ensures { result ≡ octet_of word.now }
{
    let octet = number_in(0, u32::from(u8::MAX), word)?;
    Ok(octet as u8)
}

#[tactic(auto, unfolding(crate::specs::Values::address_from))]
fn address_from(octets: &[&[u8]]) -> Result<[u8; 4], LineKind>
    ensures { result ≡ address_from (map (λ octet. octet.now) octets.now) }
{
    let [a, b, c, d] = octets else {
        return Err(LineKind::Value);
    };
    Ok([octet_of(a)?, octet_of(b)?, octet_of(c)?, octet_of(d)?])
}

#[tactic(auto, unfolding(crate::specs::Values::address_of))]
fn address_of(alloc: Global, word: &[u8]) -> Result<[u8; 4], LineFault>
    ensures { Reads (address_of word.now) result }
{
    let octets = parts(alloc, word, b'.')?;
    Ok(address_from(octets.as_slice())?)
}

/// The address that the words are, or none.
#[tactic(auto, unfolding(crate::specs::Values::address_in))]
pub(crate) fn address_in(alloc: Global, words: &[&[u8]]) -> Result<Option<[u8; 4]>, LineFault>
    ensures { Reads (address_in (map (λ word. word.now) words.now)) result }
{
    match words {
        [] => Ok(None),
        [address] => Ok(Some(address_of(alloc, address)?)),
        _ => Err(LineFault::VALUE),
    }
}

/// The address and the seconds that the words are, where they are there.
#[tactic(auto, unfolding(crate::specs::Values::wait_in))]
pub(crate) fn wait_in(alloc: Global, words: &[&[u8]]) -> Result<(Option<[u8; 4]>, u32), LineFault>
    ensures { Reads (wait_in (map (λ word. word.now) words.now)) result }
{
    match words {
        [] => Ok((None, SECONDS)),
        [word] => either_of(alloc, word),
        [address, seconds] => {
            let address = address_of(alloc, address)?;
            Ok((Some(address), seconds_of(seconds)?))
        }
        _ => Err(LineFault::VALUE),
    }
}

/// A word that is seconds, or else an address.
fn either_of(alloc: Global, word: &[u8]) -> Result<(Option<[u8; 4]>, u32), LineFault>
    ensures { Reads (either_of word.now (seconds_of word.now)) result }
{
    match seconds_of(word) {
        Ok(seconds) => Ok((None, seconds)),
        Err(_) => Ok((Some(address_of(alloc, word)?), SECONDS)),
    }
}

/// The manager that a host, a GUID and an address tell.
#[tactic(auto, unfolding(crate::specs::Values::identity_of))]
pub(crate) fn identity_of(
    alloc: Global,
    host: &[u8],
    guid: &[u8],
    address: &[u8],
) -> Result<Identity, LineFault>
    ensures { Reads (identity_of host.now guid.now address.now) result }
{
    let host = name_of(alloc, host)?;
    let guid = guid_of(guid)?;
    let address = address_of(alloc, address)?;
    Ok(Identity {
        host,
        guid,
        address,
    })
}
