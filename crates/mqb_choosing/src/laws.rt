//! What follows from the definitions. Each function stands for a law: its contract is the law.
ghost use Rattle.std.specs.Prelude.{◌≡◌, List, flat_map, length, map, sum_by, ℕ};
ghost use Rattle.mqb_base.specs.declared.ids.Guid.{Guid};
ghost use Rattle.mqb_base.specs.declared.ids.Identity.{Identity};
ghost use Rattle.mqb_model.specs.calls.pump.Candidates.{Candidate, candidates};
ghost use Rattle.mqb_model.specs.calls.pump.Choosing.{candidate_size, chosen, with_heads};
ghost use Rattle.mqb_model.specs.calls.pump.Pump.{origin_of, packet_for};
ghost use Rattle.mqb_model.specs.managers.Manager.{Rest};
ghost use Rattle.mqb_model.specs.managers.Valid.{IsSentIn};
ghost use Rattle.mqb_model.specs.state.State.{State};
ghost use Rattle.mqb_packet.specs.Plain.{plain_spelling};
ghost use Rattle.mqb_plain.specs.Plain.{PlainLists};
ghost use Rattle.mqb_session.specs.State as one_end;
ghost use Rattle.mqb_choosing.specs.Noting.{AreNextSent};

use mqb_packet::plain_size;

/// Of the packets that go, each plain message is the next one for its peer when it is noted in its
/// turn, and its number is above those of its list.
pub fn sent_are_next()
    ensures { (s : State) (rest : Rest) (now k : ℕ) (peer : Identity) (p : PlainLists)
        (session : one_end.State) → IsSentIn session p → AreNextSent p (map origin_of
        (with_heads session (chosen session 0 0 (candidates s rest now k peer p)))) }
{}

/// Packets have as many bytes as were counted for them, whatever is left of their time.
pub fn bytes_are_counted()
    ensures { (to : Guid) (now : ℕ) (session : one_end.State) (cs : List Candidate) →
        length (flat_map (λ given. plain_spelling (packet_for to now given))
        (with_heads session cs)) ≡ sum_by candidate_size cs }
{
    plain_size();
}
