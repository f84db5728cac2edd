ghost use Rattle.std.specs.Prelude.{◌≡◌, ◌++◌, codes, OnOk};
ghost use Rattle.mqb_transcript.specs.Printing.{wrote};
ghost use Rattle.mqb_transcript.specs.Texts.{spaced, class_text, id_text, place_text, line_text};
ghost use Rattle.mqb_transcript.specs.Texts.{bracketed, lines_text};

use crate::printer::Printer;
use mqb_base::{Class, Line, Memory, MessageId, SequenceId};

impl<'h> Printer<'h> {
    /// A word, a number of a sequence and an identifier.
    #[tactic(auto, using(crate::specs::lemmas::Wrote::writing))]
    fn placed_about(
        &mut self,
        word: &[u8],
        sequence: &SequenceId,
        number: u32,
        id: &MessageId,
    ) -> Result<(), Memory>
        ensures { OnOk result (self.new ≡ wrote self.old
            (word.now ++ place_text sequence.now number
            ++ spaced (id_text self.old.hosts id.now))) }
    {
        self.placed(word, sequence, number)?;
        self.about(b" ", id)
    }

    /// A word, a class and an identifier.
    #[tactic(auto, using(crate::specs::lemmas::Wrote::writing))]
    pub fn classed_about(&mut self, word: &[u8], class: Class, id: &MessageId) -> Result<(), Memory>
        ensures { OnOk result (self.new ≡ wrote self.old
            (word.now ++ class_text class ++ spaced (id_text self.old.hosts id.now))) }
    {
        self.classed(word, class)?;
        self.about(b" ", id)
    }

    #[tactic(auto, using(crate::specs::lemmas::Wrote::writing))]
    fn refused(
        &mut self,
        sequence: &SequenceId,
        number: u32,
        class: Class,
        id: &MessageId,
    ) -> Result<(), Memory>
        ensures { OnOk result (self.new ≡ wrote self.old
            (codes "refused " ++ place_text sequence.now number ++ spaced (class_text class)
            ++ spaced (id_text self.old.hosts id.now))) }
    {
        self.placed(b"refused ", sequence, number)?;
        self.classed(b" ", class)?;
        self.about(b" ", id)
    }

    #[tactic(auto, using(crate::specs::lemmas::Wrote::writing), unfolding(crate::specs::Texts::line_text))]
    fn ledger_line(&mut self, line: &Line) -> Result<(), Memory>
        ensures { OnOk result (self.new ≡ wrote self.old (line_text self.old.hosts line.now)) }
    {
        match line {
            Line::Committed { stream, number, id } => {
                self.placed_about(b"committed ", &stream.sequence, *number, id)
            }
            Line::Expired {
                stream,
                number,
                id,
                ..
            } => self.placed_about(b"expired ", &stream.sequence, *number, id),
            Line::Put { stream, number, id } => {
                self.placed_about(b"put ", &stream.sequence, *number, id)
            }
            Line::Refused {
                stream,
                number,
                class,
                id,
            } => self.refused(&stream.sequence, *number, *class, id),
            Line::Local { id } => self.about(b"local ", id),
            Line::Stored { id } => self.about(b"stored ", id),
            Line::Bounced { class, id } => self.classed_about(b"bounced ", *class, id),
            Line::Released { id } => self.about(b"released ", id),
            Line::Took { id } => self.about(b"took ", id),
            Line::Emptied { id } => self.about(b"emptied ", id),
            Line::Purged { id } => self.about(b"purged ", id),
            Line::Lapsed { id } => self.about(b"lapsed ", id),
            Line::Swept { id } => self.about(b"swept ", id),
        }
    }

    #[tactic(auto, using(crate::specs::lemmas::Wrote::writing), unfolding(crate::specs::Texts::bracketed))]
    fn bracketed(&mut self, line: &Line) -> Result<(), Memory>
        ensures { OnOk result (self.new ≡ wrote self.old (bracketed self.old.hosts line.now)) }
    {
        self.put(b" [")?;
        self.ledger_line(line)?;
        self.put(b"]")
    }

    /// Ledger lines, each in brackets behind a space.
    #[tactic(auto, using(crate::specs::lemmas::Wrote::writing), unfolding(crate::specs::Texts::lines_text))]
    pub fn ledger(&mut self, lines: &[Line]) -> Result<(), Memory>
        ensures { OnOk result (self.new ≡ wrote self.old (lines_text self.old.hosts lines.now)) }
    {
        for line in lines {
            self.bracketed(line)?;
        }
        Ok(())
    }
}
