ghost use Rattle.std.specs.Prelude.{◌≡◌};
ghost use Rattle.std.specs.Option.{option_copied};
ghost use Rattle.mqb_base.specs.Same.{same_bytes};
ghost use Rattle.mqb_script.specs.Forms.{form_among, form_of, word_of, has_count};

use crate::grammar::Grammar;
use mqb_forms::{LineKind, is_word};

/// The form of a line, which its first word tells.
#[derive(Clone, Copy, Debug, PartialEq, Eq)]
pub enum Form {
    Queue,
    Commit,
    Send,
    Take,
    Purge,
    Tick,
    Connect,
    Disconnect,
    Pump,
    Deliver,
    Drop,
    Flow,
    Resend,
    Arm,
    Restart,
    Roll,
    Checkpoint,
}

const FORMS: [Form; 17] = [
    Form::Queue,
    Form::Commit,
    Form::Send,
    Form::Take,
    Form::Purge,
    Form::Tick,
    Form::Connect,
    Form::Disconnect,
    Form::Pump,
    Form::Deliver,
    Form::Drop,
    Form::Flow,
    Form::Resend,
    Form::Arm,
    Form::Restart,
    Form::Roll,
    Form::Checkpoint,
];

impl Form {
    fn word(self) -> &'static [u8]
        ensures { result.now ≡ word_of self }
    {
        match self {
            Form::Queue => b"queue",
            Form::Commit => b"commit",
            Form::Send => b"send",
            Form::Take => b"take",
            Form::Purge => b"purge",
            Form::Tick => b"tick",
            Form::Connect => b"connect",
            Form::Disconnect => b"disconnect",
            Form::Pump => b"pump",
            Form::Deliver => b"deliver",
            Form::Drop => b"drop",
            Form::Flow => b"flow",
            Form::Resend => b"resend",
            Form::Arm => b"arm",
            Form::Restart => b"restart",
            Form::Roll => b"roll",
            Form::Checkpoint => b"checkpoint",
        }
    }

    /// Whether so many words may stand behind the first one.
    pub(crate) fn has_count(self, grammar: Grammar, count: usize) -> bool
        ensures { result ≡ has_count grammar self count }
    {
        match self {
            Form::Queue => count == 5 || count == 6,
            Form::Commit => count >= 3,
            Form::Send => count == 5,
            Form::Connect => count == 4 + grammar.more_words(),
            Form::Take | Form::Purge | Form::Arm => count == 3,
            Form::Tick | Form::Pump | Form::Deliver | Form::Flow | Form::Restart | Form::Roll =>
                count == 2,
            Form::Drop | Form::Resend | Form::Checkpoint => count == 1,
            Form::Disconnect => count == grammar.more_words(),
        }
    }
}

fn is_word_of(form: Form, word: &[u8]) -> bool
    ensures { result ≡ same_bytes (word_of form) word.now }
{
    is_word(form.word(), word)
}

fn form_among<'f>(forms: &'f [Form], word: &[u8]) -> Option<&'f Form>
    ensures { option_copied result ≡ form_among forms.now word.now }
{
    forms.iter().find(|form| is_word_of(**form, word))
}

#[tactic(auto, unfolding(crate::specs::Forms::form_of))]
pub(crate) fn form_of(word: &[u8]) -> Result<Form, LineKind>
    ensures { result ≡ form_of word.now }
{
    form_among(&FORMS, word).copied().ok_or(LineKind::Word)
}
