//! What a sender chooses is sound by its type: it makes a message, and its names are names. Each
//! function only says it.
ghost use Rattle.std.specs.Prelude.{All};
ghost use Rattle.mqb_model.specs.laws.Fitting.{IsDrafted, IsDraftedOp};

use mqb_base::{Draft, Op};
use mqb_names::{queue_fits, queue_fits_if};

fn draft_fits(draft: &Draft)
    ensures { IsDrafted draft.now }
{
    let parts = draft.parts();
    queue_fits(&parts.destination);
    queue_fits_if(&parts.admin);
    queue_fits_if(&parts.response);
}

fn op_fits(op: &Op)
    ensures { IsDraftedOp op.now }
{
    match op {
        Op::Send(draft) => draft_fits(draft),
        Op::Take(_) => {}
    }
}

/// What the ops of a transaction send is sound.
pub fn ops_fit(ops: &[Op])
    ensures { All IsDraftedOp ops.now }
{
    for op in ops {
        op_fits(op);
    }
}
