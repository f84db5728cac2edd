ghost use Rattle.std.specs.Prelude.{◌≡◌, ◌++◌, ◌<◌, [], find, OnOk, OnErr};
ghost use Rattle.std.specs.Fmt.{decimal};
ghost use Rattle.std.specs.Option.{option_copied};
ghost use Rattle.mqb_base.specs.Same.{same_guid};
ghost use Rattle.mqb_names.specs.Printed.{printed, printed_guid};
ghost use Rattle.mqb_transcript.specs.Printing.{wrote};
ghost use Rattle.mqb_transcript.specs.Texts.{spaced, numbers_text, manager_text, id_text};
ghost use Rattle.mqb_transcript.specs.Texts.{place_text, hex_digit, class_text};

use itoa::Buffer;
use mqb_base::{Class, Guid, Identity, Memory, MessageId, QueueName, SequenceId};
use mqb_names::{write_guid, write_name};
use std::alloc::Global;
use std::marker::Model;

/// A text that is being printed, and the managers that are printed as their hosts. After a refusal
/// a part of what was asked may stand in it. Contracts see both.
#[derive(Drop)]
pub struct Printer<'h> {
    hosts: &'h [Identity],
    text: Vec<u8>,
}

impl<'h> Model for Printer<'h> {
    ghost use Rattle.mqb_transcript.specs.Printing.{Page};

    ghost Value = { Page };

    ghost view = { λ p. record { hosts = p.hosts.now; text = p.text.items } };
}

/// How many bytes more a text has room for where it grows: a line has fewer, as a rule.
const LINE: usize = 128;

/// Makes room for `more` bytes, and for a line at once where there is less.
fn make_room(text: &mut Vec<u8>, more: usize) -> Result<(), Memory>
    ensures { text.new.items ≡ text.old.items }
{
    if text.capacity() - text.len() < more {
        text.reserve(more.max(LINE))?;
    }
    Ok(())
}

fn hex_digit(n: u16) -> u8
    requires { n < 16 }
    ensures { result ≡ hex_digit n }
{
    if n < 10 {
        b'0' + n as u8
    } else {
        b'A' + (n - 10) as u8
    }
}

fn known_as<'h>(guid: &Guid, hosts: &'h [Identity]) -> Option<&'h Identity>
    ensures { option_copied result ≡ find (λ known. same_guid known.guid guid.now) hosts.now }
{
    hosts.iter().find(|known| known.guid == *guid)
}

impl<'h> Printer<'h> {
    pub fn new(alloc: Global, hosts: &'h [Identity]) -> Printer<'h>
        ensures { result ≡ record { hosts = hosts.now; text = [] } }
    {
        Printer {
            hosts,
            text: Vec::new(alloc),
        }
    }

    pub fn text(&self) -> &[u8]
        ensures { result.now ≡ self.now.text }
    {
        self.text.as_slice()
    }

    #[tactic(auto, unfolding(crate::specs::Printing::wrote))]
    pub fn put(&mut self, text: &[u8]) -> Result<(), Memory>
        ensures { OnOk result (self.new ≡ wrote self.old text.now) }
    {
        make_room(&mut self.text, text.len())?;
        self.text.extend_from_slice(text)?;
        Ok(())
    }

    pub fn number(&mut self, number: u32) -> Result<(), Memory>
        ensures { OnOk result (self.new ≡ wrote self.old (decimal number)) }
    {
        self.count(u64::from(number))
    }

    pub fn count(&mut self, count: u64) -> Result<(), Memory>
        ensures { OnOk result (self.new ≡ wrote self.old (decimal count)) }
    {
        let mut buffer = Buffer::new();
        self.put(buffer.format(count).as_bytes())
    }

    #[tactic(auto, unfolding(crate::specs::Printing::wrote))]
    fn guid(&mut self, guid: &Guid) -> Result<(), Memory>
        ensures { OnOk result (self.new ≡ wrote self.old (printed_guid guid.now)) }
    {
        write_guid(guid, &mut self.text)
    }

    /// The host of a manager, or its GUID.
    #[tactic(auto, unfolding(crate::specs::Texts::manager_text))]
    pub fn manager(&mut self, guid: &Guid) -> Result<(), Memory>
        ensures { OnOk result (self.new ≡ wrote self.old (manager_text self.old.hosts guid.now)) }
    {
        match known_as(guid, self.hosts) {
            Some(known) => self.put(known.host.as_slice()),
            None => self.guid(guid),
        }
    }

    /// The name of a queue.
    #[tactic(auto, unfolding(crate::specs::Printing::wrote))]
    pub fn name(&mut self, name: &QueueName) -> Result<(), Memory>
        ensures { OnOk result (self.new ≡ wrote self.old (printed name.now)) }
    {
        write_name(name, &mut self.text)
    }

    /// The identifier of a message: its manager, a dot and its number.
    #[tactic(auto, using(crate::specs::lemmas::Wrote::writing), unfolding(crate::specs::Texts::id_text))]
    pub fn id(&mut self, id: &MessageId) -> Result<(), Memory>
        ensures { OnOk result (self.new ≡ wrote self.old (id_text self.old.hosts id.now)) }
    {
        self.manager(&id.qm)?;
        self.put(b".")?;
        self.number(id.number)
    }

    /// The numbers, each behind a space.
    #[tactic(auto, using(crate::specs::lemmas::Wrote::writing), unfolding(crate::specs::Texts::numbers_text))]
    pub fn numbers(&mut self, numbers: &[u32]) -> Result<(), Memory>
        ensures { OnOk result (self.new ≡ wrote self.old (numbers_text numbers.now)) }
    {
        for number in numbers {
            self.spaced_number(*number)?;
        }
        Ok(())
    }

    #[tactic(auto, using(crate::specs::lemmas::Wrote::writing))]
    pub fn spaced_number(&mut self, number: u32) -> Result<(), Memory>
        ensures { OnOk result (self.new ≡ wrote self.old (spaced (decimal number))) }
    {
        self.put(b" ")?;
        self.number(number)
    }

    /// The ordinal of a sequence and a number in it.
    #[tactic(auto, using(crate::specs::lemmas::Wrote::writing), unfolding(crate::specs::Texts::place_text))]
    pub fn place(&mut self, sequence: &SequenceId, number: u32) -> Result<(), Memory>
        ensures { OnOk result (self.new ≡ wrote self.old (place_text sequence.now number)) }
    {
        self.number(sequence.ordinal)?;
        self.spaced_number(number)
    }

    /// A class as four hexadecimal digits in capitals.
    #[tactic(auto, unfolding(crate::specs::Texts::class_text))]
    pub fn class(&mut self, class: Class) -> Result<(), Memory>
        ensures { OnOk result (self.new ≡ wrote self.old (class_text class)) }
    {
        let digits = [
            hex_digit(class.0 / 4096),
            hex_digit(class.0 / 256 % 16),
            hex_digit(class.0 / 16 % 16),
            hex_digit(class.0 % 16),
        ];
        self.put(&digits)
    }

    /// A word and an identifier.
    #[tactic(auto, using(crate::specs::lemmas::Wrote::writing))]
    pub fn about(&mut self, word: &[u8], id: &MessageId) -> Result<(), Memory>
        ensures { OnOk result (self.new ≡ wrote self.old (word.now ++
            id_text self.old.hosts id.now)) }
    {
        self.put(word)?;
        self.id(id)
    }

    /// A word and a class.
    #[tactic(auto, using(crate::specs::lemmas::Wrote::writing))]
    pub fn classed(&mut self, word: &[u8], class: Class) -> Result<(), Memory>
        ensures { OnOk result (self.new ≡ wrote self.old (word.now ++ class_text class)) }
    {
        self.put(word)?;
        self.class(class)
    }

    /// A word, the ordinal of a sequence and a number in it.
    #[tactic(auto, using(crate::specs::lemmas::Wrote::writing))]
    pub fn placed(&mut self, word: &[u8], sequence: &SequenceId, number: u32) -> Result<(), Memory>
        ensures { OnOk result (self.new ≡ wrote self.old (word.now ++
            place_text sequence.now number)) }
    {
        self.put(word)?;
        self.place(sequence, number)
    }
}
