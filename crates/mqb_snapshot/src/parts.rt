ghost use Rattle.std.specs.Prelude.{◌≡◌, ◌≤◌, ◌++◌, All, IsTrue, OnOk, flat_map, length, map};
ghost use Rattle.mqb_base.specs.QueueNames.{names_queue};
ghost use Rattle.mqb_base.specs.declared.roomed.TheConstants.{MAX_MEMBERS};
ghost use Rattle.mqb_orders.specs.Rows.{row_of};
ghost use Rattle.mqb_snapshot.specs.Spelled.{IsSized, counted, spelled_identity, spelled_in};
ghost use Rattle.mqb_snapshot.specs.Spelled.{spelled_kept, spelled_out, spelled_plan};
ghost use Rattle.mqb_snapshot.specs.Values.{IsCounted, IsHeld, IsIdentity, IsIn, IsOut, IsPlan};

use crate::tail::Tail;
use crate::typed::{identity_fits, in_row_fits, plan_fits};
use mqb_base::{Identity, Memory, QueuePlan};
use mqb_names::{queue_fits, word_fits};
use mqb_orders::{InRow, Kept, KeptList, OutRow};
use std::alloc::Global;

impl Tail {
    pub(crate) fn identity(&mut self, identity: &Identity) -> Result<(), Memory>
        ensures added { OnOk result (self.new.text ≡
            self.old.text ++ spelled_identity identity.now) }
        ensures front { self.new.front ≡ self.old.front }
        ensures typed { IsIdentity identity.now }
    {
        identity_fits(identity);
        self.name(&identity.host)?;
        self.guid(&identity.guid)?;
        self.put(&identity.address)
    }

    pub(crate) fn identities(&mut self, identities: &[Identity]) -> Result<(), Memory>
        requires { length identities.now ≤ MAX_MEMBERS }
        ensures added { OnOk result (self.new.text ≡
            self.old.text ++ counted spelled_identity identities.now) }
        ensures front { self.new.front ≡ self.old.front }
        ensures typed { OnOk result (All IsIdentity identities.now) }
    {
        self.u32(identities.len() as u32)?;
        for identity in identities {
            self.identity(identity)?;
        }
        Ok(())
    }

    pub(crate) fn queue_plan(&mut self, plan: &QueuePlan) -> Result<(), Memory>
        ensures added { OnOk result (self.new.text ≡ self.old.text ++ spelled_plan plan.now) }
        ensures front { self.new.front ≡ self.old.front }
        ensures typed { IsPlan plan.now }
    {
        plan_fits(plan);
        self.name(&plan.name)?;
        self.public(&plan.public)?;
        self.flag(plan.transactional)?;
        self.u32(plan.quota)?;
        self.flag(plan.journal)
    }

    /// A kept message behind its number.
    fn kept(&mut self, alloc: Global, kept: &Kept) -> Result<(), Memory>
        requires { IsSized kept.now.message }
        ensures added { OnOk result (self.new.text ≡ self.old.text ++ spelled_kept kept.now) }
        ensures front { self.new.front ≡ self.old.front }
        ensures typed { OnOk result (IsHeld kept.now.message) }
    {
        self.u32(kept.number)?;
        self.message(alloc, &kept.message)
    }

    fn kept_list(&mut self, alloc: Global, list: &KeptList) -> Result<(), Memory>
        requires { All (λ k. IsSized k.message) list.now.items }
        ensures added { OnOk result (self.new.text ≡
            self.old.text ++ counted spelled_kept list.now.items) }
        ensures front { self.new.front ≡ self.old.front }
        ensures few { OnOk result (IsCounted list.now.items) }
        ensures typed { OnOk result (All (λ k. IsHeld k.message) list.now.items) }
    {
        self.u32(list.len())?;
        for at in 0..list.len() {
            self.kept(alloc, list.get(at))?;
        }
        Ok(())
    }

    pub(crate) fn out_row(&mut self, alloc: Global, row: &OutRow) -> Result<(), Memory>
        requires named { IsTrue (names_queue row.now.destination) }
        requires sized { All (λ k. IsSized k.message) row.now.kept.items }
        ensures added { OnOk result (self.new.text ≡
            self.old.text ++ spelled_out (row_of row.now)) }
        ensures front { self.new.front ≡ self.old.front }
        ensures typed { OnOk result (IsOut (row_of row.now)) }
    {
        queue_fits(&row.destination);
        word_fits(row.sequence.stamp);
        self.u32(row.peer)?;
        self.destination(&row.destination)?;
        self.u32(row.sequence.ordinal)?;
        self.u32(row.sequence.stamp)?;
        self.u32(row.committed)?;
        self.u32(row.offered)?;
        self.u32(row.acked)?;
        self.kept_list(alloc, &row.kept)
    }

    pub(crate) fn in_row(&mut self, row: &InRow) -> Result<(), Memory>
        requires { IsTrue (names_queue row.now.destination) }
        ensures added { OnOk result (self.new.text ≡ self.old.text ++ spelled_in row.now) }
        ensures front { self.new.front ≡ self.old.front }
        ensures typed { IsIn row.now }
    {
        in_row_fits(row);
        self.guid(&row.source)?;
        self.destination(&row.destination)?;
        self.u32(row.sequence.ordinal)?;
        self.u32(row.sequence.stamp)?;
        self.u32(row.last)
    }
}
