ghost use Rattle.std.specs.Prelude.{◌≡◌, List};
ghost use Rattle.mqb_base.specs.declared.ids.Identity.{Identity};
ghost use Rattle.mqb_transcript.specs.declared.arrivals.Outcome.{Outcome};
ghost use Rattle.mqb_transcript.specs.declared.arrivals.Arrival.{Arrival};
ghost use Rattle.mqb_transcript.specs.declared.replies.Reply.{Reply};
ghost use Rattle.mqb_transcript.specs.declared.replies.Reply.TheVariants.{Flowed};
ghost use Rattle.mqb_transcript.specs.Texts.{outcome_text, reply_text};
ghost use Rattle.mqb_transcript.specs.Told.{told, told_of, told_in_turn, HaveNoColon};

/// A law of the texts: they tell apart what a script does not determine, which is stops and
/// failures, records that were kept and lost, and stores that are too far on.
pub fn texts_tell_apart()
    ensures reply { (hosts : List Identity) (a b : Reply) →
        reply_text hosts a ≡ reply_text hosts b → told a ≡ told b }
    ensures outcome { (hosts : List Identity) (a b : Outcome) →
        outcome_text hosts a ≡ outcome_text hosts b → told_of a ≡ told_of b }
    ensures flow { (hosts : List Identity) (a b : List Arrival) → HaveNoColon hosts →
        reply_text hosts (Flowed a) ≡ reply_text hosts (Flowed b)
        → told_in_turn a ≡ told_in_turn b }
{}
