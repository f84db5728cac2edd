ghost use Rattle.std.specs.Prelude.{◌≡◌};
ghost use Rattle.mqb_script.specs.Hosts.{more_words, manager_of, one_of_pair, one_of_ring};

use mqb_forms::{LineKind, is_word, number_in};

/// Whose script it is: how its managers are called, and whether a line names both
/// ends of a connection.
#[derive(Clone, Copy, Debug, PartialEq, Eq)]
pub enum Grammar {
    /// Of two, `alpha` and `beta`. There is one connection, so that its ends need not be named.
    Pair,
    /// Of a ring of so many, from `m1` on.
    Ring { count: u32 },
}

impl Grammar {
    /// How many words more the lines of connections have than those of a pair.
    pub(crate) fn more_words(self) -> usize
        ensures { result ≡ more_words self }
    {
        match self {
            Grammar::Pair => 0,
            Grammar::Ring { .. } => 1,
        }
    }
}

fn one_of_pair(word: &[u8]) -> Result<u32, LineKind>
    ensures { result ≡ one_of_pair word.now }
{
    if is_word(word, b"alpha") {
        return Ok(0);
    }
    if is_word(word, b"beta") {
        return Ok(1);
    }
    Err(LineKind::Value)
}

fn one_of_ring(count: u32, word: &[u8]) -> Result<u32, LineKind>
    ensures { result ≡ one_of_ring count word.now }
{
    let [b'm', number @ ..] = word else {
        return Err(LineKind::Value);
    };
    let number = number_in(1, count, number)?;
    Ok(number - 1)
}

/// The index of the manager that a word names.
#[tactic(auto, unfolding(crate::specs::Hosts::manager_of))]
pub(crate) fn manager_of(grammar: Grammar, word: &[u8]) -> Result<u32, LineKind>
    ensures { result ≡ manager_of grammar word.now }
{
    match grammar {
        Grammar::Pair => one_of_pair(word),
        Grammar::Ring { count } => one_of_ring(count, word),
    }
}
