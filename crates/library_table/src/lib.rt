// The cell library: what a cell is, the library text (specs/Library.antt), the library table (specs/Layout.antt), and what a
// library table tells of its cells. The text is read by `library_text`.
//
// Open to others, each for every input: `cells::count`, `cells::find`, `cells::pins_of` and `cells::told`. What they say of a
// table that holds cells: `holds-count`, `holds_find` and `holds-pins` of proofs/Names.antt.
// For the crates above: `cells::cell_place`, and of an entry its headings `Heading`, the words of its row lines `Word`, and the
// line that it wants next, `Wanted`. What stands before a field of a row line is `Before`.
#![tactic(auto)]

pub mod cells;

ghost use Rattle.std.specs.Prelude.{◌≡◌, ◌<◌, ◌^◌};
ghost use Rattle.library_table.specs.Cells.{depth_bits};
ghost use Rattle.library_table.specs.Layout.{heading_number, heading_told};
ghost use Rattle.library_table.specs.Library.{may_join, may_end};

// The words of an entry that have rows.
#[derive(Clone, Copy)]
pub enum Word {
    CC,
    CO,
    SC,
    SO,
}

// The heading of an entry, the word that it begins with: `Name`, or `Name3` (02, K2).
#[derive(Clone, Copy)]
pub enum Heading {
    Plain,
    Deep,
}

impl Heading {
    // A heading as the number that a table has for it.
    #[tactic(auto, unfolding(crate::specs::Layout::heading_number))]
    pub fn number(self) -> u32
        ensures { result ≡ heading_number self }
    {
        match self {
            Heading::Plain => 0,
            Heading::Deep => 1,
        }
    }

    // The heading that a number of a table tells.
    #[tactic(auto, unfolding(crate::specs::Layout::heading_told, reading::specs::Choice::pick))]
    pub fn told(number: u32) -> Heading
        ensures { result ≡ heading_told number }
    {
        match number {
            0 => Heading::Plain,
            _ => Heading::Deep,
        }
    }

    // How many depths a row of its entry may have: the row is written as its columns times this, and its depth.
    #[tactic(auto, unfolding(crate::specs::Cells::depth_bits))]
    pub fn depths(self) -> u32
        ensures value { result ≡ 2 ^ depth_bits self }
        ensures some { 0 < result }
    {
        match self {
            Heading::Plain => 2,
            Heading::Deep => 8,
        }
    }
}

// The line that an entry wants behind its Name line. (No `Option<Word>`: the End line is wanted too, and `None` would say that
// no line is.)
#[derive(Clone, Copy)]
pub enum Wanted {
    Rows(Word),
    End,
}

// What stands before a field of a row line: the line's word, or a Z, which as little as the word may be joined; a row; an M.
#[derive(Clone, Copy)]
pub enum Before {
    Word,
    Row,
    Join,
}

impl Before {
    // Whether an M may stand behind it.
    #[tactic(auto, unfolding(crate::specs::Library::may_join))]
    pub fn may_join(self) -> bool
        ensures { result ≡ may_join self }
    {
        matches!(self, Before::Row)
    }

    // Whether a Z may, or the line's end.
    #[tactic(auto, unfolding(crate::specs::Library::may_end))]
    pub fn may_end(self) -> bool
        ensures { result ≡ may_end self }
    {
        !matches!(self, Before::Join)
    }
}
