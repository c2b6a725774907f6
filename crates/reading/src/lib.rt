// What reading a text comes to: read, or refused by document 01's number and line. Beside the
// definitions that every reader uses (specs/): `pick`, `Each`, `Read` with `weigh` and `form`, and the
// refusal numbers, which have their one home in specs/Numbers.antt, and in `Cause` for the code.
//
// Open to others: the types `Refusal` and `Cause`. A reader, and each call behind one, answers a
// `Result` whose error is a `Refusal`; specs/Answer.antt says what it tells.
#![tactic(auto)]

ghost use Rattle.std.specs.Prelude.{◌≡◌};
ghost use Rattle.reading.specs.Cause.{cause_number, refusal_at};

// Why a text or a list of records is refused: document 01's number, and the line, or the place of a
// record, from 1; 0 where neither is meant. The number is one: C gets it, and what is printed may be any.
#[derive(Clone, Copy, PartialEq, Eq)]
pub struct Refusal {
    pub number: u32,
    pub line: usize,
}

// Why a line, a record or a whole text is refused, in the order of document 01's numbers (`number`).
#[derive(Clone, Copy, PartialEq, Eq)]
pub enum Cause {
    // At entry: a lent table below its published size, a text that is too long.
    TableShort,
    TextLong,
    // Of a library line.
    LibraryForm,
    NameUsed,
    PinsBad,
    GroupsBad,
    BitAbove,
    RowIdle,
    CellsMany,
    // Of a netlist line or a record.
    NetlistForm,
    LineBad,
    CellUnknown,
    PinsDiffer,
    DrivenBefore,
    MarkedBefore,
    // Of the report. 16 is unused: a 1,001st gate is refused by 11 or 14 (K9).
    ReportLong,
    // Of a plan written out.
    NoFigure,
    PlanLong,
    // Of a whole netlist, behind its lines.
    Undeclared,
    // Of a netlist line that prices an input within a range.
    NotInput,
    RangeBad,
    // Of a pad: its line is not mentioned, or an output already; its ticket's count is not the present one.
    Unpaddable,
    TicketStale,
}

impl Cause {
    // Document 01's number.
    pub fn number(self) -> u32
        ensures { result ≡ cause_number self }
    {
        match self {
            Cause::TableShort => 1,
            Cause::TextLong => 2,
            Cause::LibraryForm => 3,
            Cause::NameUsed => 4,
            Cause::PinsBad => 5,
            Cause::GroupsBad => 6,
            Cause::BitAbove => 7,
            Cause::RowIdle => 8,
            Cause::CellsMany => 9,
            Cause::NetlistForm => 10,
            Cause::LineBad => 11,
            Cause::CellUnknown => 12,
            Cause::PinsDiffer => 13,
            Cause::DrivenBefore => 14,
            Cause::MarkedBefore => 15,
            Cause::ReportLong => 17,
            Cause::NoFigure => 18,
            Cause::PlanLong => 19,
            Cause::Undeclared => 20,
            Cause::NotInput => 21,
            Cause::RangeBad => 22,
            Cause::Unpaddable => 23,
            Cause::TicketStale => 24,
        }
    }

    // The refusal of a line, or of a record by its place; 0 where neither is meant.
    pub fn at(self, line: usize) -> Refusal
        ensures { result ≡ refusal_at self line }
    {
        Refusal {
            number: self.number(),
            line,
        }
    }
}
