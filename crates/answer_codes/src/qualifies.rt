// Of which netlists document 02, K8, speaks, asked of two texts and told by one number for C.
//
// For the crates above: `qualifies_code`, 0, 1 or 2 as `chip_call::qualifies` answers of two texts, read into tables of its
// own, by `Theorems::number`, or the refusal, by one number. Nothing is calculated. specs/Qualifies.antt says what it promises.
ghost use Rattle.answer_codes.specs.Qualifies.{QualifiesCoded};

use analysis_texts::{Tables, read_texts};
use netlist_table::Rules;
use reading::Refusal;
use writer::refusal_code;

pub fn qualifies_code(lib: &[u8], net: &[u8]) -> u64
    ensures { QualifiesCoded lib.now net.now result }
{
    let mut library = [0u32; sizes::LIBRARY];
    let mut netlist = [0u32; sizes::NETLIST];
    let progress = read_texts(
        Rules::New,
        lib,
        net,
        &mut library,
        &mut netlist,
        sizes::NUMBERS,
        Tables::Own,
    );
    match progress {
        Ok(()) => chip_call::qualifies(&library, &netlist).number() as u64,
        Err(stop) => refusal_code(Refusal::from(stop)),
    }
}
