ghost use Rattle.std.specs.Prelude.{ℕ, List};
ghost use Rattle.mqb_picture.specs.Elements.{Progress};
ghost use Rattle.mqb_picture.specs.Laws.{OneElementAnAnswer};

/// No reply is left out, and none is drawn twice.
pub fn one_element_an_answer()
    ensures { (n : ℕ) (line reply : List ℕ) (p q : Progress) → OneElementAnAnswer n line reply p q }
{}
