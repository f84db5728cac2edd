ghost use Rattle.std.specs.Prelude.{◌≡◌, ◌++◌, [], OnOk};
ghost use Rattle.std.specs.Fmt.{decimal};
ghost use Rattle.mqb_svg.specs.Svg.{escaped_byte, escaped};

use mqb_base::Memory;
use std::alloc::Global;
use std::marker::Model;

/// The text of a picture that is being written. Contracts see the text. After a refusal a part of
/// what was asked may stand in it.
#[derive(Drop)]
pub struct Page {
    alloc: Global,
    text: Vec<u8>,
}

impl Model for Page {
    ghost use Rattle.std.specs.Prelude.{ℕ, List};

    ghost Value = { List ℕ };

    ghost view = { λ p. p.text.items };
}

impl Page {
    pub(crate) fn new(alloc: Global) -> Page
        ensures { result ≡ [] }
    {
        Page {
            alloc,
            text: Vec::new(alloc),
        }
    }

    pub fn as_slice(&self) -> &[u8]
        ensures { result.now ≡ self.now }
    {
        self.text.as_slice()
    }

    pub(crate) fn put(&mut self, text: &[u8]) -> Result<(), Memory>
        ensures { OnOk result (self.new ≡ self.old ++ text.now) }
    {
        self.text.extend_from_slice(text)?;
        Ok(())
    }

    pub(crate) fn number(&mut self, number: usize) -> Result<(), Memory>
        ensures { OnOk result (self.new ≡ self.old ++ decimal number) }
    {
        let digits = number.to_string(self.alloc)?;
        self.put(digits.as_bytes())
    }

    fn escaped_byte(&mut self, byte: u8) -> Result<(), Memory>
        ensures { OnOk result (self.new ≡ self.old ++ escaped_byte byte) }
    {
        match byte {
            b'&' => self.put(b"&amp;"),
            b'<' => self.put(b"&lt;"),
            b'>' => self.put(b"&gt;"),
            b'"' => self.put(b"&quot;"),
            b'\'' => self.put(b"&#39;"),
            b' '..=b'~' => self.put(&[byte]),
            _ => self.put(b"?"),
        }
    }

    /// A text, in which nothing is markup.
    #[tactic(auto, unfolding(crate::specs::Svg::escaped))]
    pub(crate) fn escaped(&mut self, text: &[u8]) -> Result<(), Memory>
        ensures { OnOk result (self.new ≡ self.old ++ escaped text.now) }
    {
        for byte in text {
            self.escaped_byte(*byte)?;
        }
        Ok(())
    }
}
