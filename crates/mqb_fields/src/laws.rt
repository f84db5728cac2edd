ghost use Rattle.std.specs.Prelude.{◌≡◌, ◌≤◌, ◌<◌, ◌+◌, ◌^◌, ℕ, List, ◌++◌, length, Ok};
ghost use Rattle.mqb_fields.specs.Reading.{number_at, guid_at};
ghost use Rattle.mqb_fields.specs.Writing.{put_at, bytes_of};
ghost use Rattle.mqb_fields.specs.Guids.{swapped};

/// A number that was put is read again.
pub fn number_is_read()
    ensures { (to : List ℕ) (at width number : ℕ) → at + width ≤ length to → number < 256 ^ width →
        let put = put_at to at (bytes_of width number) in
        number_at width (record { bytes = put; at = at })
        ≡ Ok (number, record { bytes = put; at = at + width }) }
{}

/// A GUID that was put is read again.
pub fn guid_is_read()
    ensures { (to guid : List ℕ) (at : ℕ) → at + 16 ≤ length to → length guid ≡ 16 →
        let put = put_at to at (swapped guid) in
        guid_at (record { bytes = put; at = at })
        ≡ Ok (guid, record { bytes = put; at = at + 16 }) }
{}

/// What is put behind what was put is put with it as one.
pub fn parts_are_one()
    ensures { (to first second : List ℕ) (at : ℕ) → at + length first ≤ length to →
        put_at (put_at to at first) (at + length first) second ≡ put_at to at (first ++ second) }
{}

/// What fills a list is all of it then.
pub fn all_is_put()
    ensures { (to bytes : List ℕ) → length to ≡ length bytes → put_at to 0 bytes ≡ bytes }
{}
