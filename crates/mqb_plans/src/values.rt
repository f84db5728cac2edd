//! What a sender chose is sound by its type.
ghost use Rattle.mqb_model.specs.laws.Fitting.{IsDrafted};

use mqb_base::Draft;
use mqb_names::{queue_fits, queue_fits_if};

/// What a sender chose makes a message, and its names are names.
pub(crate) fn draft_fits(draft: &Draft)
    ensures { IsDrafted draft.now }
{
    let parts = draft.parts();
    queue_fits(&parts.destination);
    queue_fits_if(&parts.admin);
    queue_fits_if(&parts.response);
}
