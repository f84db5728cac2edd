ghost use Rattle.std.specs.Prelude.{◌≡◌, ℕ, List, ◌++◌, length, Ok};
ghost use Rattle.mqb_base.specs.declared.heads.SessionHead.{SessionHead};
ghost use Rattle.mqb_fields.specs.Reading.{Reading, rest_of, moved};
ghost use Rattle.mqb_setup.specs.declared.internal.Establish.{Establish};
ghost use Rattle.mqb_setup.specs.declared.internal.Internal.{Internal};
ghost use Rattle.mqb_setup.specs.declared.internal.Parameters.{Parameters};
ghost use Rattle.mqb_setup.specs.Internals.{internal_at, plain_establish};
ghost use Rattle.mqb_setup.specs.Internals.{plain_internal, plain_parameters};
ghost use Rattle.mqb_setup.specs.Sessions.{session_at, plain_session};
ghost use Rattle.mqb_setup.specs.Widths.{IsInternal, IsSessionHead};

/// A session header that was put is read again wherever it stands, whatever follows, and the
/// reading goes on behind it.
pub fn session_is_read()
    ensures { (r : Reading) (head : SessionHead) (rest : List ℕ) → IsSessionHead head →
        rest_of r ≡ plain_session head ++ rest →
        session_at r ≡ Ok (head, moved (length (plain_session head)) r) }
{}

/// An internal header and its part that were put are read again wherever they stand, whatever
/// follows, and the reading goes on behind them.
pub fn internal_is_read()
    ensures { (r : Reading) (part : Internal) (rest : List ℕ) → IsInternal part →
        rest_of r ≡ plain_internal part ++ rest →
        internal_at r ≡ Ok (part, moved (length (plain_internal part)) r) }
{}

/// How many bytes each part has.
pub fn lengths_of_parts()
    ensures session { (head : SessionHead) → length (plain_session head) ≡ 16 }
    ensures establish { (establish : Establish) → length (plain_establish establish) ≡ 552 }
    ensures parameters { (parameters : Parameters) → length (plain_parameters parameters) ≡ 12 }
{}
