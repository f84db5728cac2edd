ghost use Rattle.std.specs.Prelude.{◌≡◌, [], ◌∷◌, ◌++◌, OnOk, OnErr};

use mqb_base::{Memory, Op};
use std::alloc::Global;
use std::marker::Model;

/// The steps of a transaction, in order. Contracts see the list.
#[derive(Debug, Drop)]
pub struct Ops {
    items: Vec<Op>,
}

impl Model for Ops {
    ghost use Rattle.std.specs.Prelude.{List};
    ghost use Rattle.mqb_base.specs.declared.draft.Op.{Op};

    ghost Value = { List Op };

    ghost view = { λ o. o.items.items };
}

impl Ops {
    /// An empty list.
    pub fn new(alloc: Global) -> Ops
        ensures { result ≡ [] }
    {
        Ops {
            items: Vec::new(alloc),
        }
    }

    pub fn push(&mut self, op: Op) -> Result<(), Memory>
        ensures ok { OnOk result (self.new ≡ self.old ++ op ∷ []) }
        ensures err { OnErr result (self.new ≡ self.old) }
    {
        self.items.push(op)?;
        Ok(())
    }

    pub fn as_slice(&self) -> &[Op]
        ensures { result.now ≡ self.now }
    {
        self.items.as_slice()
    }
}
