ghost use Rattle.std.specs.Prelude.{◌≡◌, ◌≤◌, ℕ, List, true};
ghost use Rattle.mqb_heads.specs.declared.base.TheConstants.{MIN_PACKET};
ghost use Rattle.mqb_stream.specs.Cutting.{CutsInto};
ghost use Rattle.mqb_stream.specs.Framing.{next, wants_more};
ghost use Rattle.mqb_stream.specs.Histories.{IsAnswerOf, Step, history};

/// Bytes are cut in one way alone.
pub fn one_cutting()
    ensures { (limit : ℕ) (bytes rest end : List ℕ) (frames others : List (List ℕ)) →
        CutsInto limit bytes frames rest → CutsInto limit bytes others end
        → (frames ≡ others) × (rest ≡ end) }
{}

/// After any feeds and advances a framer's answer is that of the cutting of all bytes that it took.
pub fn next_is_cut()
    ensures { (limit room : ℕ) (steps : List Step) → MIN_PACKET ≤ limit →
        IsAnswerOf (history limit room steps) (next (history limit room steps).framing) }
{}

/// The pieces in which the same bytes come do not matter, once each whole packet was dropped.
pub fn pieces_do_not_matter()
    ensures { (limit room : ℕ) (steps others : List Step) → MIN_PACKET ≤ limit →
        wants_more (next (history limit room steps).framing) ≡ true →
        wants_more (next (history limit room others).framing) ≡ true →
        (history limit room steps).taken ≡ (history limit room others).taken →
        ((history limit room steps).frames ≡ (history limit room others).frames)
        × ((history limit room steps).framing.held ≡ (history limit room others).framing.held) }
{}
