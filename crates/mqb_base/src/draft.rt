ghost use Rattle.std.specs.Prelude.{◌≡◌, None, IfOk};
ghost use Rattle.mqb_base.specs.Answers.{RefusedExactly};
ghost use Rattle.mqb_base.specs.Drafts.{draft_fault};
ghost use Rattle.mqb_base.specs.QueueNames.{absent_or_queue};

use crate::bits::{MAX_ACK, MAX_JOURNAL};
use crate::bytes::Bytes;
use crate::ids::MessageId;
use crate::message::{MAX_LABEL, MAX_PRIORITY};
use crate::names::Name;
use crate::queue_names::QueueName;
use crate::units::Units;
use std::marker::Model;
use thiserror::Error;

/// The parts of a message that its sender chooses. Their units and bits are those of `Message`.
#[derive(Debug, PartialEq, Eq, Drop)]
pub struct Parts {
    pub destination: QueueName,
    pub priority: u8,
    pub reach: u32,
    pub life: u32,
    pub admin: Option<QueueName>,
    pub response: Option<QueueName>,
    pub ack: u8,
    pub journal: u8,
    pub correlation: MessageId,
    pub body_type: u32,
    pub tag: u32,
    pub label: Units,
    pub extension: Bytes,
    pub body: Bytes,
}

/// Parts that were tested: a message may be made of them. Contracts see the parts.
#[derive(Debug, Drop)]
pub struct Draft {
    parts: Parts,
}

/// Why no message may be made of parts.
#[derive(Clone, Copy, Debug, PartialEq, Eq, Error)]
pub enum DraftFault {
    #[error("the destination is a machine's queue or a journal")]
    Destination,
    #[error("a priority is 0 to 7")]
    Priority,
    #[error("the admin name is a machine's queue or a journal")]
    Admin,
    #[error("the response name is a machine's queue or a journal")]
    Response,
    #[error("an acknowledgement has no bits above 8")]
    Ack,
    #[error("a journal has no bits above 2")]
    Journal,
    #[error("a label has at most 250 units")]
    Label,
}

impl Model for Draft {
    ghost use Rattle.std.specs.Prelude.{◌≡◌, None};
    ghost use Rattle.mqb_base.specs.declared.draft.Parts.{Parts};
    ghost use Rattle.mqb_base.specs.Drafts.{draft_fault};
    ghost use Rattle.mqb_base.specs.QueueNames.{absent_or_queue};

    ghost Value = { Parts };

    ghost view = { λ d. d.parts };

    ghost invariant = { λ d. draft_fault d.parts ≡ None };
}

fn names_queue(name: &Option<QueueName>) -> bool
    ensures { result ≡ absent_or_queue name.now }
{
    match name {
        Some(name) => name.names_queue(),
        None => true,
    }
}

impl Draft {
    /// Tests the parts in the order of the variants of `DraftFault`.
    pub fn build(parts: Parts) -> Result<Draft, DraftFault>
        ensures built { IfOk result (λ draft. draft ≡ parts) }
        ensures refused { RefusedExactly (draft_fault parts) result }
    {
        if !parts.destination.names_queue() {
            return Err(DraftFault::Destination);
        }
        if parts.priority > MAX_PRIORITY {
            return Err(DraftFault::Priority);
        }
        if !names_queue(&parts.admin) {
            return Err(DraftFault::Admin);
        }
        if !names_queue(&parts.response) {
            return Err(DraftFault::Response);
        }
        if parts.ack > MAX_ACK {
            return Err(DraftFault::Ack);
        }
        if parts.journal > MAX_JOURNAL {
            return Err(DraftFault::Journal);
        }
        if parts.label.as_slice().len() > MAX_LABEL {
            return Err(DraftFault::Label);
        }
        Ok(Draft { parts })
    }

    pub fn parts(&self) -> &Parts
        ensures parts { result.now ≡ self.now }
        ensures tested { draft_fault self.now ≡ None }
    {
        &self.parts
    }
}

/// One step of a transaction: to send a message, or to take the first one of a queue.
#[derive(Debug, Drop)]
pub enum Op {
    Send(Draft),
    Take(Name),
}
