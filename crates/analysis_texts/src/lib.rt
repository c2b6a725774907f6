// The reading of a call: the checks at entry, the library text, and the netlist text, each into its table. Nothing is
// calculated here. demands/specs/Outcome.antt has what reading comes to (`entry`, `read_pair`), specs/Progress.antt how
// far a call has come then.
//
// For the crates above: `Stop`, `Tables`; `read_texts`, over two texts; `begin`, the entry and the library text alone,
// behind which a caller reads its netlist itself.
//
// Module `entry`: the checks at entry, and what a later refusal clears.
#![tactic(auto)]

pub mod entry;

ghost use Rattle.std.specs.Prelude.{◌≡◌, length};
ghost use Rattle.sizes.specs.Sizes as Size;
ghost use Rattle.table.specs.Blocks.{cleared};
ghost use Rattle.demands.specs.Outcome.{entry_by, given_by};
ghost use Rattle.analysis_texts.specs.declared.Stop.TheVariants.{Later};
ghost use Rattle.analysis_texts.specs.Progress.{refusal_of, Begun, NetlistFits, TextRead, Reached};
ghost use Rattle.analysis_texts.specs.Tables.{ZeroIfOwn};

use crate::entry::entry;
use library_text::lines::read_lines;
use netlist_table::Rules;
use netlist_text::read_all;
use reading::Refusal;
use table::clear;

// Where a call stops: refused at entry, with all that was lent as it was; or refused later.
#[derive(Clone, Copy)]
pub enum Stop {
    AtEntry(Refusal),
    Later(Refusal),
}

// What reading refuses behind the entry stops a call later.
impl From<Refusal> for Stop {
    ghost from_gives = { λ r stop. stop ≡ Later r };

    fn from(r: Refusal) -> Stop {
        Self::Later(r)
    }
}

// The refusal, whichever it is, for a call that leaves nothing to be cleared.
impl From<Stop> for Refusal {
    ghost from_gives = { λ stop r. r ≡ refusal_of stop };

    fn from(stop: Stop) -> Refusal {
        match stop {
            Stop::AtEntry(r) => r,
            Stop::Later(r) => r,
        }
    }
}

// Whose the library and the netlist table are: a call's own, zero as it makes them, or lent, with anything in them.
#[derive(Clone, Copy)]
pub enum Tables {
    Own,
    Lent,
}

// Makes a table zero up to its published size. One of the call's own is so already.
fn clear_lent(table: &mut [u32], size: usize, tables: Tables)
    requires { ZeroIfOwn tables size table.old }
    ensures { table.new ≡ cleared size table.old }
{
    match tables {
        Tables::Own => {}
        Tables::Lent => clear(table, size),
    }
}

// The entry and the library text. Of the netlist text and of the other tables it takes the lengths.
pub fn begin(
    lib: &[u8],
    net: usize,
    library: &mut [u32],
    netlist: usize,
    numbers: usize,
    tables: Tables,
) -> Result<(), Stop>
    requires { ZeroIfOwn tables Size.library library.old }
    ensures { Begun lib.now net library.old netlist numbers result library.new }
{
    entry(lib.len(), net, library.len(), netlist, numbers).map_err(Stop::AtEntry)?;
    clear_lent(library, sizes::LIBRARY, tables);
    read_lines(lib, library)?;
    Ok(())
}

// Reads the netlist text by the rules named, against the cells of the library table.
fn read_netlist(
    rules: Rules,
    net: &[u8],
    library: &[u32],
    netlist: &mut [u32],
    tables: Tables,
) -> Result<(), Stop>
    requires { NetlistFits net.now netlist.old × ZeroIfOwn tables Size.netlist netlist.old }
    ensures { TextRead rules net.now library.now netlist.old netlist.new result }
{
    clear_lent(netlist, sizes::NETLIST, tables);
    read_all(rules, net, library, netlist)?;
    Ok(())
}

// The entry and both texts, the netlist by the rules named. Of the numbers table it takes the length. The texts and the tables
// are parameters of their own, as the calls that README and docs name have them (what may not change), which hand them on.
pub fn read_texts(
    rules: Rules,
    lib: &[u8],
    net: &[u8],
    library: &mut [u32],
    netlist: &mut [u32],
    numbers: usize,
    tables: Tables,
) -> Result<(), Stop>
    requires { ZeroIfOwn tables Size.library library.old × ZeroIfOwn tables Size.netlist netlist.old }
    ensures { Reached (given_by rules lib.now net.now)
        (entry_by (length lib.now) (length net.now)
        (length library.old) (length netlist.old) numbers)
        library.old netlist.old library.new netlist.new result }
{
    begin(lib, net.len(), library, netlist.len(), numbers, tables)?;
    read_netlist(rules, net, library, netlist, tables)
}
