ghost use Rattle.std.specs.Prelude.{◌≡◌, ◌↔◌, ◌++◌, ℕ, List, IsTrue, Ok, Some, length};
ghost use Rattle.mqb_base.specs.declared.queue_names.QueueName.{QueueName};
ghost use Rattle.mqb_base.specs.QueueNames.{names_queue};
ghost use Rattle.mqb_names.specs.Grammar.{IsText};
ghost use Rattle.mqb_names.specs.Printed.{printed};
ghost use Rattle.mqb_names.specs.Reading.{name_of};
ghost use Rattle.mqb_names.specs.Values.{IsQueueName};
ghost use Rattle.mqb_names.specs.Wire.{kind_of, spelled, wire, wire_at};

/// A text is read as a name exactly where it is a spelling of that name.
pub fn spelling_is_read()
    ensures { (text : List ℕ) (name : QueueName) → IsQueueName name → (name_of text ≡ Ok name) ↔
        IsText text name }
{}

/// The printed form of a name is read as that name.
pub fn printed_is_read()
    ensures { (name : QueueName) → IsQueueName name → name_of (printed name) ≡ Ok name }
{}

/// No two names are printed alike.
pub fn one_printed_form()
    ensures { (a b : QueueName) → IsQueueName a → IsQueueName b → printed a ≡ printed b → a ≡ b }
{}

/// The wire form of a name is found whatever follows it, and spells that name.
pub fn wire_is_read()
    ensures used { (name : QueueName) (rest : List ℕ) → IsQueueName name →
        IsTrue (names_queue name) →
        wire_at (kind_of name) (wire name ++ rest) ≡ Ok (length (wire name)) }
    ensures name { (name : QueueName) → IsQueueName name → IsTrue (names_queue name) →
        spelled (kind_of name) (wire name) ≡ Some name }
{}
