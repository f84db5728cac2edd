ghost use Rattle.std.specs.Prelude.{◌≡◌, ◌==◌, not, position, IfOk, None};
ghost use Rattle.std.specs.Cmp.{partial_equiv_from_equiv};
ghost use Rattle.std.specs.Cmp.Lexicographic.{pointwise, nat_list_eq_equiv};
ghost use Rattle.std.specs.Cmp.Rules.{hashing};
ghost use Rattle.std.specs.Hash as fed;
ghost use Rattle.std.proofs.Common.{rules};
ghost use Rattle.mqb_base.specs.Answers.{RefusedBy};
ghost use Rattle.mqb_base.specs.Names.{name_fault, is_name_byte};
ghost use Rattle.mqb_base.specs.Same.{same_ignoring_case};

use std::alloc::{AllocError, Global};
use std::hash::{Hash, Hasher};
use std::marker::Model;
use std::rc::RcSlice;
use thiserror::Error;

/// The most bytes of a name.
pub const MAX_NAME: usize = 64;

/// The name of a host or a queue: 1 to 64 bytes from 0x21 to 0x7E without `\`, `;`, `=` and `,`.
/// Contracts see the list of its bytes. A clone shares them.
#[derive(Debug, Drop)]
pub struct Name {
    bytes: RcSlice<u8>,
}

/// Why bytes are no name.
#[derive(Clone, Copy, Debug, PartialEq, Eq, Error)]
pub enum NameError {
    #[error("a name has 1 to 64 bytes")]
    Length,
    #[error("byte {at} may not stand in a name")]
    Byte { at: usize },
    #[error("out of memory")]
    Memory,
}

impl Model for Name {
    ghost use Rattle.std.specs.Prelude.{◌≡◌, ℕ, List, None};

    ghost Value = { List ℕ };

    ghost use Rattle.std.specs.Rc.{rc_slice_items};
    ghost use Rattle.mqb_base.specs.Names.{name_fault};

    ghost view = { λ n. rc_slice_items n.bytes };

    ghost invariant = { λ n. name_fault (rc_slice_items n.bytes) ≡ None };
}

/// Whether a byte may stand in a name.
pub fn is_name_byte(byte: u8) -> bool
    ensures { result ≡ is_name_byte byte }
{
    matches!(byte, 0x21..=0x7E) && !matches!(byte, b'\\' | b';' | b'=' | b',')
}

fn first_outside(bytes: &[u8]) -> Option<usize>
    ensures { result ≡ position (λ b. not (is_name_byte b)) bytes.now }
{
    bytes.iter().position(|byte| !is_name_byte(*byte))
}

fn fault_of(bytes: &[u8]) -> Option<NameError>
    ensures { result ≡ name_fault bytes.now }
{
    if bytes.is_empty() || bytes.len() > MAX_NAME {
        return Some(NameError::Length);
    }
    first_outside(bytes).map(|at| NameError::Byte { at })
}

impl Name {
    /// A copy of bytes that make a name.
    pub fn new(alloc: Global, bytes: &[u8]) -> Result<Name, NameError>
        ensures named { IfOk result (λ name. name ≡ bytes.now) }
        ensures refused { RefusedBy (name_fault bytes.now) NameError.Memory result }
    {
        if let Some(fault) = fault_of(bytes) {
            return Err(fault);
        }
        match RcSlice::from_slice(alloc, bytes) {
            Ok(bytes) => Ok(Name { bytes }),
            Err(_) => Err(NameError::Memory),
        }
    }

    pub fn as_slice(&self) -> &[u8]
        ensures bytes { result.now ≡ self.now }
        ensures name { name_fault self.now ≡ None }
    {
        self.bytes.as_slice()
    }

    /// Whether the names are equal but for the case of their letters.
    pub fn eq_ignore_ascii_case(&self, other: &Name) -> bool
        ensures { result ≡ same_ignoring_case self.now other.now }
    {
        self.bytes
            .as_slice()
            .eq_ignore_ascii_case(other.bytes.as_slice())
    }
}

impl Clone for Name {
    ghost is_clone = { λ old copy. copy ≡ old };

    fn clone(&self) -> Result<Name, AllocError> {
        Ok(Name {
            bytes: self.bytes.clone()?,
        })
    }
}

impl PartialEq for Name {
    ghost eq = { pointwise ◌==◌ };

    ghost laws = { partial_equiv_from_equiv nat_list_eq_equiv };

    fn eq(&self, other: &Self) -> bool {
        self.bytes.as_slice() == other.bytes.as_slice()
    }
}

impl Eq for Name {
    ghost laws = { nat_list_eq_equiv };
}

impl Hash for Name {
    ghost hash_input = { λ name. fed.slice fed.u8 name };

    ghost respects_eq = { Prim.search (hashing, rules) };

    fn hash<H: Hasher>(&self, state: &mut H) {
        self.bytes.hash(state);
    }
}
