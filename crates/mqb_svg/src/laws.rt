ghost use Rattle.std.specs.Prelude.{◌≡◌, ℕ, List, true};
ghost use Rattle.std.specs.List.{list_all};
ghost use Rattle.mqb_svg.specs.Svg.{escaped};
ghost use Rattle.mqb_svg.specs.Laws.{is_plain};

/// No text of an input is markup: none of its bytes begins or ends a tag or an attribute,
/// and all are printable.
pub fn no_text_is_markup()
    ensures { (text : List ℕ) → list_all is_plain (escaped text) ≡ true }
{}
