//! The messages that went one way, which are found by their sequences and their numbers.
ghost use Rattle.std.specs.List.{slice_get};
ghost use Rattle.std.specs.Prelude.{◌≡◌, ◌∷◌, ◌++◌, [], IfOk, List, OnErr, OnOk, Some, nat_lt};
ghost use Rattle.std.specs.Prelude.{true, ℕ};
ghost use Rattle.mqb_capture.specs.Links.{AreLinked};
ghost use Rattle.mqb_inspect.specs.Linking.{may_join, fits_all};
ghost use Rattle.mqb_inspect.specs.Keeping.{AreKept, AreOnce, HasKey, IsBefore, IsFrom};
ghost use Rattle.mqb_inspect.specs.Keeping.{fits_found, sequence_of};
ghost use Rattle.mqb_inspect.specs.declared.links.SequenceKey.{SequenceKey};

use crate::fitting::fit_both;
use indexmap::IndexSet;
use mqb_base::{Memory, QueueName, SequenceId};
use mqb_capture::Link;
use std::alloc::Global;
use std::collections::BTreeMap;
use std::marker::Model;

/// What the messages of one sequence have in common.
#[derive(Debug, PartialEq, Eq, Hash, Drop)]
struct SequenceKey {
    destination: QueueName,
    sequence: SequenceId,
}

/// By what a message is found: the index of its sequence, and its number there.
#[derive(Clone, Copy, Debug, PartialEq, Eq, PartialOrd, Ord)]
struct LinkKey {
    sequence: usize,
    number: u32,
}

/// The index of a message's sequence. One that is new is entered.
fn index_of(sequences: &mut IndexSet<SequenceKey>, link: &Link) -> Result<usize, Memory>
    ensures at { IfOk result (λ index. slice_get sequences.new.keys index ≡
        Some (sequence_of link.now)) }
    ensures stay { (index : ℕ) (key : SequenceKey) → slice_get sequences.old.keys index ≡ Some key →
        slice_get sequences.new.keys index ≡ Some key }
    ensures once { AreOnce sequences.old.keys → AreOnce sequences.new.keys }
{
    let key = SequenceKey {
        destination: link.message.destination.clone()?,
        sequence: link.tx.sequence,
    };
    let (index, _) = sequences.insert_full(key)?;
    Ok(index)
}

/// The place to which the greatest key before this one leads.
fn place_before(places: &BTreeMap<LinkKey, usize>, key: LinkKey) -> Option<usize>
    ensures { IsBefore places.now key result }
{
    match places.range(..key).next_back() {
        Some((_, place)) => Some(*place),
        None => None,
    }
}

/// The place to which the least key leads that is this one or behind it.
fn place_from(places: &BTreeMap<LinkKey, usize>, key: LinkKey) -> Option<usize>
    ensures { IsFrom places.now key result }
{
    match places.range(key..).next() {
        Some((_, place)) => Some(*place),
        None => None,
    }
}

/// Whether a message fits the one at a place that was found, or none was.
fn fits_found(came: &[Link], found: Option<usize>, link: &Link) -> bool
    ensures { result ≡ fits_found came.now found link.now }
{
    match found {
        Some(place) => match came.get(place) {
            Some(kept) => fit_both(kept, link),
            None => true,
        },
        None => true,
    }
}

/// Whether a message that has this key fits each that came: its neighbours tell.
fn fits_all(came: &[Link], places: &BTreeMap<LinkKey, usize>, key: LinkKey, link: &Link) -> bool
    ensures { (sequences : List SequenceKey) → AreKept sequences places.now came.now →
        AreLinked came.now → HasKey sequences link.now key → result ≡ fits_all came.now link.now }
{
    fits_found(came, place_before(places, key), link)
        && fits_found(came, place_from(places, key), link)
}

/// Whether a message links to a number below its own.
fn links_below(link: &Link) -> bool
    ensures { result ≡ nat_lt link.now.tx.previous link.now.tx.number }
{
    link.tx.previous < link.tx.number
}

/// Whether a message that has this key may join those that came.
fn may_join(came: &[Link], places: &BTreeMap<LinkKey, usize>, key: LinkKey, link: &Link) -> bool
    ensures { (sequences : List SequenceKey) → AreKept sequences places.now came.now →
        AreLinked came.now → HasKey sequences link.now key → result ≡ may_join came.now link.now }
{
    links_below(link) && fits_all(came, places, key, link)
}

/// Keeps a message that has this key.
fn keep(
    came: &mut Vec<Link>,
    places: &mut BTreeMap<LinkKey, usize>,
    key: LinkKey,
    link: Link,
) -> Result<(), Memory>
    ensures ok { OnOk result (came.new.items ≡ came.old.items ++ link ∷ []) }
    ensures err { OnErr result (came.new.items ≡ came.old.items) }
    ensures kept { (sequences : List SequenceKey) → AreKept sequences places.old came.old.items →
        HasKey sequences link key → AreKept sequences places.new came.new.items }
{
    came.reserve(1)?;
    places.insert(key, came.len())?;
    came.push_reserved(link);
    Ok(())
}

/// The messages that went one way, in the order in which they came. The places lead to the
/// last one of each number.
#[derive(Debug, Drop)]
pub struct Links {
    came: Vec<Link>,
    sequences: IndexSet<SequenceKey>,
    places: BTreeMap<LinkKey, usize>,
}

impl Model for Links {
    ghost use Rattle.std.specs.Prelude.{List};
    ghost use Rattle.mqb_capture.specs.Links.{AreLinked};
    ghost use Rattle.mqb_capture.specs.declared.link.Link.{Link};
    ghost use Rattle.mqb_inspect.specs.Keeping.{AreKept};

    ghost Value = { List Link };

    ghost view = { λ l. l.came.items };

    ghost invariant = { λ l. AreLinked l.came.items
        × AreKept l.sequences.keys l.places l.came.items };
}

impl Links {
    pub fn new(alloc: Global) -> Links
        ensures { result ≡ [] }
    {
        Links {
            came: Vec::new(alloc),
            sequences: IndexSet::new(alloc),
            places: BTreeMap::new(alloc),
        }
    }

    /// Adds a message where it may join those that came, and says whether it does.
    pub fn add(&mut self, link: Link) -> Result<bool, Memory>
        ensures added { IfOk result (λ added. added ≡ may_join self.old link) }
        ensures joined { IfOk result (λ added. added ≡ true → self.new ≡ self.old ++ link ∷ []) }
    {
        let key = LinkKey {
            sequence: index_of(&mut self.sequences, &link)?,
            number: link.tx.number,
        };
        if may_join(&self.came, &self.places, key, &link) {
            keep(&mut self.came, &mut self.places, key, link)?;
            return Ok(true);
        }
        Ok(false)
    }
}
