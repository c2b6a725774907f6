// What a sweep reads of a chip: the library table, the netlist table, and the links of that netlist.
ghost use Rattle.sweep_links.specs.Lines.{Links};

// The links are those that `link` makes of both tables.
#[derive(Clone, Copy)]
pub struct Circuit<'a> {
    pub library: &'a [u32],
    pub netlist: &'a [u32],
    pub links: &'a [sizes::Link; sizes::LINKS],
    pub ghost linked: { Links library.now netlist.now links.now },
}
