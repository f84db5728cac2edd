ghost use Rattle.std.specs.Prelude.{◌≡◌};
ghost use Rattle.std.specs.List.{list_any};
ghost use Rattle.mqb_base.specs.Same.{same_bytes};
ghost use Rattle.mqb_picture.specs.Texts.{is_commit, is_put, is_refusal, is_stop, mark_of};

use crate::words::is_word;
use mqb_svg::Mark;

fn is_commit(word: &[u8]) -> bool
    ensures { result ≡ is_commit word.now }
{
    is_word(word, b"committed") || is_word(word, b"sent")
}

fn is_put(word: &[u8]) -> bool
    ensures { result ≡ is_put word.now }
{
    is_word(word, b"put") || is_word(word, b"stored") || is_word(word, b"express")
}

/// The first words of the answers that refuse something.
const REFUSALS: [&[u8]; 20] = [
    b"refused",
    b"bounced",
    b"expressbounced",
    b"closed",
    b"queuethere",
    b"toomanyqueues",
    b"toomanyops",
    b"toolarge",
    b"toofar",
    b"numbersspent",
    b"sequencespent",
    b"noqueue",
    b"nottransactional",
    b"transactional",
    b"queueempty",
    b"queuefull",
    b"unknownpeer",
    b"linked",
    b"unlinked",
    b"spent",
];

fn is_one_of(word: &[u8], these: &[&[u8]]) -> bool
    ensures { result ≡ list_any (λ this. same_bytes word.now this.now) these.now }
{
    these.iter().any(|this| is_word(word, this))
}

fn is_refusal(word: &[u8]) -> bool
    ensures { result ≡ is_refusal word.now }
{
    is_one_of(word, &REFUSALS)
}

fn is_stop(word: &[u8]) -> bool
    ensures { result ≡ is_stop word.now }
{
    is_word(word, b"stopped") || is_word(word, b"failed") || is_word(word, b"down")
}

/// The mark of an answer that begins with this word.
#[tactic(auto, unfolding(crate::specs::Texts::mark_of))]
pub fn mark_of(word: &[u8]) -> Mark
    ensures { result ≡ mark_of word.now }
{
    if is_commit(word) {
        Mark::Commit
    } else if is_put(word) {
        Mark::Put
    } else if is_refusal(word) {
        Mark::Refusal
    } else if is_stop(word) {
        Mark::Stop
    } else if is_word(word, b"opened") {
        Mark::Restart
    } else {
        Mark::Plain
    }
}
