ghost use Rattle.std.specs.Prelude.{◌≡◌, ◌≤◌, ◌++◌, ℕ, codes, replicate, false, Ok};
ghost use Rattle.std.specs.Fmt.{decimal};
ghost use Rattle.mqb_forms.specs.Sends.{MOST_COUNTED, body_of};
ghost use Rattle.mqb_script.specs.declared.events.Event.{Event};
ghost use Rattle.mqb_script.specs.declared.grammar.Grammar.{Grammar};
ghost use Rattle.mqb_script.specs.Hosts.{MOST_MANAGERS, count_of};
ghost use Rattle.mqb_script.specs.Lines.{is_skipped, event_of};
ghost use Rattle.mqb_script.specs.Spelling.{IsSpelled, line_of};

/// A law of the grammar: the line of an event is no comment, and is read as that event. A body of
/// bytes `x` may also be told by its length.
pub fn lines_are_read_back()
    ensures kept { (grammar : Grammar) (event : Event) → IsSpelled grammar event →
        is_skipped (line_of grammar event) ≡ false }
    ensures event { (grammar : Grammar) → count_of grammar ≤ MOST_MANAGERS →
        (event : Event) → IsSpelled grammar event →
        event_of grammar (line_of grammar event) ≡ Ok event }
    ensures counted { (n : ℕ) → n ≤ MOST_COUNTED →
        body_of (codes "*" ++ decimal n) ≡ Ok (replicate n 0x78) }
{}

/// No two events have a line in common.
pub fn one_event_a_line()
    ensures { (grammar : Grammar) → count_of grammar ≤ MOST_MANAGERS →
        (a b : Event) → IsSpelled grammar a → IsSpelled grammar b →
        line_of grammar a ≡ line_of grammar b → a ≡ b }
{}
