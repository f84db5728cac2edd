ghost use Rattle.std.specs.Prelude.{◌≡◌};
ghost use Rattle.std.specs.Option.{option_copied};
ghost use Rattle.mqb_base.specs.Same.{same_bytes};
ghost use Rattle.mqb_words.specs.Misfits.{sample_of};
ghost use Rattle.mqb_words.specs.Table.{form_among, form_of, word_of};

use mqb_forms::{LineKind, is_word};

/// The form of words, which the first of them tells.
#[derive(Clone, Copy, Debug, PartialEq, Eq)]
pub enum Form {
    Replay,
    Make,
    Trial,
    Show,
    Init,
    Peer,
    Create,
    Send,
    Commit,
    Take,
    Purge,
    Tick,
    Roll,
    Checkpoint,
    List,
    Peek,
    Probe,
    Shell,
    Serve,
    Attend,
    Push,
    Fetch,
    Help,
    Version,
}

const FORMS: [Form; 24] = [
    Form::Replay,
    Form::Make,
    Form::Trial,
    Form::Show,
    Form::Init,
    Form::Peer,
    Form::Create,
    Form::Send,
    Form::Commit,
    Form::Take,
    Form::Purge,
    Form::Tick,
    Form::Roll,
    Form::Checkpoint,
    Form::List,
    Form::Peek,
    Form::Probe,
    Form::Shell,
    Form::Serve,
    Form::Attend,
    Form::Push,
    Form::Fetch,
    Form::Help,
    Form::Version,
];

impl Form {
    fn word(self) -> &'static [u8]
        ensures { result.now ≡ word_of self }
    {
        match self {
            Form::Replay => b"replay",
            Form::Make => b"make",
            Form::Trial => b"trial",
            Form::Show => b"show",
            Form::Init => b"init",
            Form::Peer => b"peer",
            Form::Create => b"create",
            Form::Send => b"send",
            Form::Commit => b"commit",
            Form::Take => b"take",
            Form::Purge => b"purge",
            Form::Tick => b"tick",
            Form::Roll => b"roll",
            Form::Checkpoint => b"checkpoint",
            Form::List => b"list",
            Form::Peek => b"peek",
            Form::Probe => b"probe",
            Form::Shell => b"shell",
            Form::Serve => b"serve",
            Form::Attend => b"attend",
            Form::Push => b"push",
            Form::Fetch => b"fetch",
            Form::Help => b"--help",
            Form::Version => b"--version",
        }
    }

    /// A command of this form.
    pub(crate) fn sample(self) -> &'static [u8]
        ensures { result.now ≡ sample_of self }
    {
        match self {
            Form::Replay => b"replay",
            Form::Make => b"make 1",
            Form::Trial => b"trial 1",
            Form::Show => b"show",
            Form::Init => b"init STORE alpha 0a0b0c0d-1112-1314-1516-1718191a1b1c 10.0.0.1",
            Form::Peer => b"peer STORE beta 2a2b2c2d-3132-3334-3536-3738393a3b3c 10.0.0.2",
            Form::Create => b"create STORE orders tx 100 none 0a0b0c0d-1112-1314-1516-1718191a1b1c",
            Form::Send =>
                b"send STORE express 3 send,PUBLIC=0a0b0c0d-1112-1314-1516-1718191a1b1c,-,-,-,-,-,hello",
            Form::Commit => b"commit STORE take,orders",
            Form::Take => b"take STORE orders",
            Form::Purge => b"purge STORE orders",
            Form::Tick => b"tick STORE",
            Form::Roll => b"roll STORE 1000",
            Form::Checkpoint => b"checkpoint STORE",
            Form::List => b"list STORE",
            Form::Peek => b"peek STORE orders 1",
            Form::Probe => b"probe STORE",
            Form::Shell => b"shell STORE",
            Form::Serve => b"serve STORE 1",
            Form::Attend => b"attend STORE 60",
            Form::Push => b"push STORE beta 10.0.0.2",
            Form::Fetch => b"fetch STORE beta 10.0.0.2 5",
            Form::Help => b"--help",
            Form::Version => b"--version",
        }
    }
}

fn is_word_of(form: Form, word: &[u8]) -> bool
    ensures { result ≡ same_bytes (word_of form) word.now }
{
    is_word(form.word(), word)
}

fn form_among<'f>(forms: &'f [Form], word: &[u8]) -> Option<&'f Form>
    ensures { option_copied result ≡ form_among forms.now word.now }
{
    forms.iter().find(|form| is_word_of(**form, word))
}

#[tactic(auto, unfolding(crate::specs::Table::form_of))]
pub(crate) fn form_of(word: &[u8]) -> Result<Form, LineKind>
    ensures { result ≡ form_of word.now }
{
    form_among(&FORMS, word).copied().ok_or(LineKind::Word)
}
