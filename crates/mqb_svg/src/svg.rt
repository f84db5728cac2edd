ghost use Rattle.std.specs.Prelude.{◌≡◌, ◌≤◌, ◌+◌, ◌*◌, ◌++◌, length, codes, IfOk, OnOk};
ghost use Rattle.std.specs.Fmt.{decimal};
ghost use Rattle.mqb_svg.specs.Sides.{other};
ghost use Rattle.mqb_svg.specs.Svg.{escaped, shape_text, mark_name, mark_place, mark_text};
ghost use Rattle.mqb_svg.specs.Svg.{fate_name, fate_word, arrow_place, arrow_text, landing};
ghost use Rattle.mqb_svg.specs.Svg.{bar_text, line_text, element_text, row_text, rows_from, TOP};
ghost use Rattle.mqb_svg.specs.Svg.{ROW, style_text, shapes_text, names_text, lifelines_text};
ghost use Rattle.mqb_svg.specs.Svg.{head_text, svg_of, MOST_ELEMENTS};

use crate::elements::Element;
use crate::fates::Fate;
use crate::marks::Mark;
use crate::page::Page;
use crate::sides::Side;
use mqb_base::Memory;
use std::alloc::Global;

fn mark_name(mark: Mark) -> &'static [u8]
    ensures { result.now ≡ mark_name mark }
{
    match mark {
        Mark::Commit => b"commit",
        Mark::Put => b"put",
        Mark::Refusal => b"refusal",
        Mark::Stop => b"stop",
        Mark::Restart => b"restart",
        Mark::Plain => b"plain",
    }
}

/// The place of a mark, and of the text beside it.
fn mark_place(side: Side) -> &'static [u8]
    ensures { result.now ≡ mark_place side }
{
    match side {
        Side::Alpha => b"' x='500'/><text x='486' y='4' text-anchor='end' class='",
        Side::Beta => b"' x='880'/><text x='894' y='4' class='",
    }
}

fn fate_name(fate: Fate) -> &'static [u8]
    ensures { result.now ≡ fate_name fate }
{
    match fate {
        Fate::Came => b"came",
        Fate::Lost => b"lost",
        Fate::Repeated => b"repeated",
        Fate::Late => b"late",
    }
}

/// What stands behind the number of a packet.
fn fate_word(fate: Fate) -> &'static [u8]
    ensures { result.now ≡ fate_word fate }
{
    match fate {
        Fate::Came => b"",
        Fate::Lost => b" lost: ",
        Fate::Repeated => b" again",
        Fate::Late => b" late",
    }
}

/// The end of an arrow's shape, which is drawn from alpha and turned round where it comes from
/// beta, and the place of its label.
fn arrow_place(from: Side) -> &'static [u8]
    ensures { result.now ≡ arrow_place from }
{
    match from {
        Side::Alpha => b"'/><text x='590' y='-7' text-anchor='middle' class='label ",
        Side::Beta => {
            b"' transform='matrix(-1 0 0 1 1380 0)'/><text x='790' y='-7' text-anchor='middle' class='label "
        }
    }
}

#[tactic(auto, unfolding(crate::specs::Svg::style_text))]
fn style() -> &'static [u8]
    ensures { result.now ≡ style_text }
{
    b"' font-family='Helvetica, Arial, sans-serif' font-size='12'>
<title>Sequence diagram of a replay</title>
<style>
.commit{fill:#1d4ed8}.put{fill:#15803d}.refusal{fill:#b45309}.stop{fill:#b91c1c}.restart{fill:#7e22ce}.plain{fill:#374151}
.line{fill:#6b7280;font-size:11px}.name{fill:#111827;font-size:15px}.name,.label{font-weight:bold}
.arrow{fill:none;stroke-width:1.6}.came{fill:#374151}.lost{fill:#b91c1c}.repeated{fill:#7e22ce}.late{fill:#b45309}
</style>
"
}

/// The shapes of marks and arrows, and a white ground.
#[tactic(auto, unfolding(crate::specs::Svg::shapes_text))]
fn shapes() -> &'static [u8]
    ensures { result.now ≡ shapes_text }
{
    b"<defs>
<circle id='commit' r='5.5' fill='#1d4ed8'/>
<path id='put' d='M-5-5H5V5H-5z' fill='#15803d'/>
<path id='refusal' d='M0-7l7 7-7 7-7-7z' fill='#b45309'/>
<path id='stop' d='M-5-5l10 10m0-10l-10 10' stroke='#b91c1c' stroke-width='3'/>
<path id='restart' d='M-6 6h12l-6-12z' fill='#7e22ce'/>
<circle id='plain' r='3.5' fill='#374151'/>
<g id='came'><path class='arrow' stroke='#374151' d='M500 0H864'/><path fill='#374151' d='M873 0l-11-5v10z'/></g>
<g id='lost'><path class='arrow' stroke='#b91c1c' stroke-dasharray='6 4' d='M500 0H682'/><path stroke='#b91c1c' stroke-width='2.4' d='M684-6l12 12m0-12l-12 12'/></g>
<g id='repeated'><path class='arrow' stroke='#7e22ce' d='M500-2.5H862M500 2.5H862'/><path fill='#7e22ce' d='M873 0l-13-7v14z'/></g>
<g id='late'><path class='arrow' stroke='#b45309' d='M500 0Q690 20 864 1'/><path fill='#b45309' d='M873 0l-12-3.5 1.3 9.8z'/></g>
</defs>
<path fill='#fff' d='M0 0H1380V9999999H0z'/>
"
}

#[tactic(auto, unfolding(crate::specs::Svg::names_text))]
fn names() -> &'static [u8]
    ensures { result.now ≡ names_text }
{
    b"'/>
<path fill='#e5e7eb' stroke='#9ca3af' d='M450 14h100v30h-100zM830 14h100v30h-100z'/>
<g class='name' text-anchor='middle'><text x='500' y='34'>alpha</text><text x='880' y='34'>beta</text></g>
"
}

impl Page {
    /// A shape at a place, and the beginning of a text in its colour.
    #[tactic(auto, unfolding(crate::specs::Svg::shape_text))]
    fn shape(&mut self, name: &[u8], place: &[u8]) -> Result<(), Memory>
        ensures { OnOk result (self.new ≡ self.old ++ shape_text name.now place.now) }
    {
        self.put(b"<use href='#")?;
        self.put(name)?;
        self.put(place)?;
        self.put(name)?;
        self.put(b"'>")
    }

    /// A mark on a lifeline, and the text beside it.
    #[tactic(auto, unfolding(crate::specs::Svg::mark_text))]
    fn mark(&mut self, side: Side, mark: Mark, text: &[u8]) -> Result<(), Memory>
        ensures { OnOk result (self.new ≡ self.old ++ mark_text side mark text.now) }
    {
        self.shape(mark_name(mark), mark_place(side))?;
        self.escaped(text)?;
        self.put(b"</text>")
    }

    /// An arrow and the beginning of its label.
    #[tactic(auto, unfolding(crate::specs::Svg::arrow_text))]
    fn arrow(&mut self, from: Side, number: usize, fate: Fate) -> Result<(), Memory>
        ensures { OnOk result (self.new ≡ self.old ++ arrow_text from number fate) }
    {
        self.shape(fate_name(fate), arrow_place(from))?;
        self.number(number)?;
        self.put(fate_word(fate))
    }

    /// The end of an arrow's label, and the answer to a packet that came.
    fn landing(&mut self, from: Side, fate: Fate, mark: Mark, text: &[u8]) -> Result<(), Memory>
        ensures { OnOk result (self.new ≡ self.old ++ landing from fate mark text.now) }
    {
        match fate {
            Fate::Lost => {
                self.escaped(text)?;
                self.put(b"</text>")
            }
            Fate::Came | Fate::Repeated | Fate::Late => {
                self.put(b"</text>")?;
                self.mark(from.other(), mark, text)
            }
        }
    }

    #[tactic(auto, unfolding(crate::specs::Svg::bar_text))]
    fn bar(&mut self, text: &[u8]) -> Result<(), Memory>
        ensures { OnOk result (self.new ≡ self.old ++ bar_text text.now) }
    {
        self.put(
            b"<rect x='492' y='-10' width='396' height='20' rx='4' fill='#e0e7ff' stroke='#a5b4fc'/>",
        )?;
        self.put(b"<text x='690' y='4' text-anchor='middle' class='plain'>")?;
        self.escaped(text)?;
        self.put(b"</text>")
    }

    /// The number of a line, in the margin.
    #[tactic(auto, unfolding(crate::specs::Svg::line_text))]
    fn line(&mut self, line: usize) -> Result<(), Memory>
        ensures { OnOk result (self.new ≡ self.old ++ line_text line) }
    {
        self.put(b"<text class='line' x='14' y='4'>")?;
        self.number(line)?;
        self.put(b"</text>")
    }

    #[tactic(auto, unfolding(crate::specs::Svg::element_text))]
    fn element(&mut self, element: &Element) -> Result<(), Memory>
        ensures { OnOk result (self.new ≡ self.old ++ element_text element.now) }
    {
        match element {
            Element::Arrow {
                line,
                from,
                number,
                fate,
                mark,
                text,
            } => {
                self.line(*line)?;
                self.arrow(*from, *number, *fate)?;
                self.landing(*from, *fate, *mark, text.as_slice())
            }
            Element::Note {
                line,
                side,
                mark,
                text,
            } => {
                self.line(*line)?;
                self.mark(*side, *mark, text.as_slice())
            }
            Element::Bar { line, text } => {
                self.line(*line)?;
                self.bar(text.as_slice())
            }
            Element::End { text } => self.bar(text.as_slice()),
        }
    }

    /// The row of an element, so far below the top.
    #[tactic(auto, unfolding(crate::specs::Svg::row_text))]
    fn row(&mut self, y: usize, element: &Element) -> Result<(), Memory>
        ensures { OnOk result (self.new ≡ self.old ++ row_text y element.now) }
    {
        self.put(b"<g transform='translate(0 ")?;
        self.number(y)?;
        self.put(b")'>")?;
        self.element(element)?;
        self.put(b"</g>\n")
    }

    #[tactic(auto, unfolding(crate::specs::Svg::lifelines_text))]
    fn lifelines(&mut self, height: usize) -> Result<(), Memory>
        ensures { OnOk result (self.new ≡ self.old ++ lifelines_text height) }
    {
        self.put(b"<path stroke='#9ca3af' stroke-width='1.5' d='M500 44V")?;
        self.number(height)?;
        self.put(b"M880 44V")?;
        self.number(height)?;
        self.put(names())
    }

    #[tactic(auto, unfolding(crate::specs::Svg::head_text))]
    fn head(&mut self, height: usize) -> Result<(), Memory>
        ensures { OnOk result (self.new ≡ self.old ++ head_text height) }
    {
        self.put(b"<svg xmlns='http://www.w3.org/2000/svg' viewBox='0 0 1380 ")?;
        self.number(height)?;
        self.put(style())?;
        self.put(shapes())?;
        self.lifelines(height)
    }

    fn rows(&mut self, elements: &[Element]) -> Result<(), Memory>
        requires { length elements.now ≤ MOST_ELEMENTS }
        ensures { OnOk result (self.new ≡ self.old ++ rows_from TOP elements.now) }
    {
        let mut y = TOP;
        for element in elements {
            self.row(y, element)?;
            y += ROW;
        }
        Ok(())
    }
}

/// How far the first row stands below the top.
const TOP: usize = 68;

/// The height of a row.
const ROW: usize = 28;

/// The greatest number of elements of a picture.
pub const MAX_ELEMENTS: usize = 4096;

/// The text of a picture with these elements.
#[tactic(auto, unfolding(crate::specs::Svg::svg_of))]
pub fn draw(alloc: Global, elements: &[Element]) -> Result<Page, Memory>
    requires { length elements.now ≤ MOST_ELEMENTS }
    ensures { IfOk result (λ page. page ≡ svg_of elements.now) }
{
    let mut page = Page::new(alloc);
    page.head(TOP + ROW * elements.len())?;
    page.rows(elements)?;
    page.put(b"</svg>\n")?;
    Ok(page)
}
