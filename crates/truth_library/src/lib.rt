// The built-in library of document 02, K6: AND2 to AND4, then likewise NAND, OR, NOR, XOR and XNOR, and last NOT.
// It is what the generator prints of 19 truth tables: crate `truth_figures` has these, and its text as a figure.
//
// Open to others: `put_built_in`, which has no condition.
#![tactic(auto)]

ghost use Rattle.std.specs.Prelude.{◌↔◌, ◌≡◌, ◌<◌, length};
ghost use Rattle.reading.specs.Numbers as No;
ghost use Rattle.reading.specs.Refusal.{refused, read};
ghost use Rattle.reading.specs.Answer.{answer_read};
ghost use Rattle.writer.specs.Buffer.{length_read, Writes};
ghost use Rattle.truth_figures.specs.BuiltIn.{entries, tables};
ghost use Rattle.truth_library.specs.Written.{built_in_within};

use reading::{Cause, Refusal};
use writer::bytes::Cursor;

// How long the text is.
pub const BYTES: usize = 2044;

// The text in the front of a lent buffer; 17 exactly where the buffer is shorter than the text, and it is then zero.
pub fn put_built_in(buffer: &mut [u8]) -> Result<usize, Refusal>
    ensures writes { Writes (built_in_within (length buffer.old)) buffer.old buffer.new result }
    ensures long { length_read (entries tables) ≡ read BYTES }
    ensures shorter { (answer_read result ≡ refused No.report_long 0) ↔ (length buffer.old < BYTES) }
{
    let mut text = Cursor::new(buffer);
    text.put_bytes(
        b"Name,AND2,2\nCC,21,M,5,13\nCO,203,211\nSC,20,M,4,12\nSO,202,210\nEnd\nName,AND3,3\nCC,101,M,21,M,5,53\nCO,1013,1043,1051\nSC,100,M,20,M,4,52\nSO,1012,1042,1050\nEnd\nName,AND4,4\nCC,401,M,101,M,21,M,5,253\nCO,4053,4213,4243,4251\nSC,400,M,100,M,20,M,4,252\nSO,4052,4212,4242,4250\nEnd\nName,NAND2,2\nCC,13,21,M,5\nCO,203,211\nSC,12,20,M,4\nSO,202,210\nEnd\nName,NAND3,3\nCC,53,101,M,21,M,5\nCO,1013,1043,1051\nSC,52,100,M,20,M,4\nSO,1012,1042,1050\nEnd\nName,NAND4,4\nCC,253,401,M,101,M,21,M,5\nCO,4053,4213,4243,4251\nSC,252,400,M,100,M,20,M,4\nSO,4052,4212,4242,4250\nEnd\nName,OR2,2\nCC,25,11,M,3\nCO,205,221\nSC,24,10,M,2\nSO,204,220\nEnd\nName,OR3,3\nCC,125,41,M,11,M,3\nCO,1025,1105,1121\nSC,124,40,M,10,M,2\nSO,1024,1104,1120\nEnd\nName,OR4,4\nCC,525,201,M,41,M,11,M,3\nCO,4125,4425,4505,4521\nSC,524,200,M,40,M,10,M,2\nSO,4124,4424,4504,4520\nEnd\nName,NOR2,2\nCC,11,M,3,25\nCO,205,221\nSC,10,M,2,24\nSO,204,220\nEnd\nName,NOR3,3\nCC,41,M,11,M,3,125\nCO,1025,1105,1121\nSC,40,M,10,M,2,124\nSO,1024,1104,1120\nEnd\nName,NOR4,4\nCC,201,M,41,M,11,M,3,525\nCO,4125,4425,4505,4521\nSC,200,M,40,M,10,M,2,524\nSO,4124,4424,4504,4520\nEnd\nName,XOR2,2\nCC,25,M,13,23,M,15\nCO,201,201\nSC,24,M,12,22,M,14\nSO,200,200\nEnd\nName,XOR3,3\nCC,125,M,113,M,63,M,55,123,M,115,M,65,M,53\nCO,1001,1001,1001\nSC,124,M,112,M,62,M,54,122,M,114,M,64,M,52\nSO,1000,1000,1000\nEnd\nName,XOR4,4\nCC,525,M,513,M,463,M,455,M,323,M,315,M,265,M,253,523,M,515,M,465,M,453,M,325,M,313,M,263,M,255\nCO,4001,4001,4001,4001\nSC,524,M,512,M,462,M,454,M,322,M,314,M,264,M,252,522,M,514,M,464,M,452,M,324,M,312,M,262,M,254\nSO,4000,4000,4000,4000\nEnd\nName,XNOR2,2\nCC,23,M,15,25,M,13\nCO,201,201\nSC,22,M,14,24,M,12\nSO,200,200\nEnd\nName,XNOR3,3\nCC,123,M,115,M,65,M,53,125,M,113,M,63,M,55\nCO,1001,1001,1001\nSC,122,M,114,M,64,M,52,124,M,112,M,62,M,54\nSO,1000,1000,1000\nEnd\nName,XNOR4,4\nCC,523,M,515,M,465,M,453,M,325,M,313,M,263,M,255,525,M,513,M,463,M,455,M,323,M,315,M,265,M,253\nCO,4001,4001,4001,4001\nSC,522,M,514,M,464,M,452,M,324,M,312,M,262,M,254,524,M,512,M,462,M,454,M,322,M,314,M,264,M,252\nSO,4000,4000,4000,4000\nEnd\nName,NOT,1\nCC,3,5\nCO,41\nSC,2,4\nSO,40\nEnd\n",
    );
    let end = text.at;
    writer::close(buffer, end, Cause::ReportLong.number())
}
