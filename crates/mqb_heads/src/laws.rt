ghost use Rattle.std.specs.Prelude.{◌≡◌, ◌<◌, ◌^◌, ◌++◌, ℕ, List, Ok, length};
ghost use Rattle.mqb_base.specs.declared.heads.TxHead.{TxHead};
ghost use Rattle.mqb_base.specs.declared.ids.Guid.{Guid};
ghost use Rattle.mqb_base.specs.declared.message.Message.{Message};
ghost use Rattle.mqb_fields.specs.Reading.{Reading, moved, rest_of};
ghost use Rattle.mqb_heads.specs.declared.base.BaseHead.{BaseHead};
ghost use Rattle.mqb_heads.specs.Base.{IsBaseHead, IsBaseRead, base_of, plain_base};
ghost use Rattle.mqb_heads.specs.Transactions.{plain_tx, tx_at};
ghost use Rattle.mqb_heads.specs.Properties.{FitsProps, IsPropsRead, Props, plain_props, props_at};
ghost use Rattle.mqb_heads.specs.Properties.{props_of, props_size};
ghost use Rattle.mqb_heads.specs.User.{FitsUser, IsUserRead, User, plain_user, user_at};
ghost use Rattle.mqb_heads.specs.User.{user_of, user_size};
ghost use Rattle.mqb_heads.specs.Values.{IsMessage, IsTxHead};
ghost use Rattle.mqb_names.specs.Values.{AreBytes};

/// A base header that is written is read again, whatever follows.
pub fn base_is_read()
    ensures { (head : BaseHead) (rest : List ℕ) → IsBaseHead head → head.reach < 2 ^ 32 →
        base_of (plain_base head ++ rest) ≡ Ok head }
{}

/// A transaction header that is written is read again, wherever it stands and whatever follows.
pub fn tx_is_read()
    ensures { (r : Reading) (head : TxHead) (rest : List ℕ) → IsTxHead head →
        rest_of r ≡ plain_tx head ++ rest →
        tx_at r ≡ Ok (head, moved (length (plain_tx head)) r) }
{}

/// A user header that is written is read again, wherever it stands and whatever follows.
pub fn user_is_read()
    ensures { (r : Reading) (m : Message) (target : Guid) (rest : List ℕ) → FitsUser m →
        IsMessage m → AreBytes 16 target.0 →
        rest_of r ≡ plain_user m target ++ rest
        → user_at r ≡ Ok (user_of m target, moved (length (plain_user m target)) r) }
{}

/// A properties header that is written is read again, wherever it stands and whatever follows.
pub fn props_is_read()
    ensures { (r : Reading) (m : Message) (rest : List ℕ) → FitsProps m → IsMessage m →
        rest_of r ≡ plain_props m ++ rest
        → props_at r ≡ Ok (props_of m, moved (length (plain_props m)) r) }
{}

/// How long the headers are that are written for a message.
pub fn sizes()
    ensures user { (m : Message) (target : Guid) → length (plain_user m target) ≡ user_size m }
    ensures props { (m : Message) → length (plain_props m) ≡ props_size m }
{}

/// What holds of each base header that was read.
pub fn base_is_well_formed()
    ensures { (bytes : List ℕ) (head : BaseHead) → base_of bytes ≡ Ok head → IsBaseRead head }
{}

/// What holds of each user header that was read.
pub fn user_is_well_formed()
    ensures { (r end : Reading) (user : User) → user_at r ≡ Ok (user, end) → IsUserRead user }
{}

/// What holds of each properties header that was read.
pub fn props_are_well_formed()
    ensures { (r end : Reading) (props : Props) → props_at r ≡ Ok (props, end) → IsPropsRead props }
{}
