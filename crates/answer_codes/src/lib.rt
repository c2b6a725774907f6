// The one number by which a call for C answers: the code of what the call in Rattle comes to. Crate `scoap_c` has the calls
// themselves; what they promise is said here, beside the laws that lead to it from the promises of the calls in Rattle, so
// that a call is proved by one law.
//
// For the crates above: `answer_code`, `advised_code` and `change_code`, of a report, an advice and a change, which ask that a
// refusal's line is below `code_lines`, as `writer::code` does, which tells of a length alone; `limit_plan`, which has no
// condition. specs/Number.antt says what the number of all calls tells, specs/Call.antt what a call keeps by it,
// specs/Coded.antt, specs/Plan.antt, specs/Cell.antt, specs/BuiltIn.antt, specs/Qualifies.antt, specs/Stand.antt,
// specs/Change.antt, specs/Best.antt and specs/Advice.antt what each call promises.
//
// Module `qualifies`: whether the theorems of K8 apply, by one number.
#![tactic(auto)]

pub mod qualifies;

ghost use Rattle.std.specs.Prelude.{◌≡◌};
ghost use Rattle.reading.specs.Numbers as No;
ghost use Rattle.writer.specs.Buffer.{LineBelow, code_of};
ghost use Rattle.reading.specs.Answer.{answer_read};
ghost use Rattle.standing_change.specs.Calls.{changed_read};
ghost use Rattle.answer_codes.specs.Number.{Limits};
ghost use Rattle.answer_codes.specs.Advice.{advice_line, line_read};
ghost use Rattle.answer_codes.specs.Change.{course_number, told_number};
ghost use Rattle.answer_codes.specs.Coded.{report_length};

use calculation::Advice;
use demands::Summary;
use reading::{Cause, Refusal};
use standing_change::Course;
use writer::code;

fn length_of(summary: Summary) -> usize
    ensures { result ≡ summary.length }
{
    summary.length
}

// A report's length, or the refusal, by one number.
pub fn answer_code(answer: Result<Summary, Refusal>) -> u64
    requires { LineBelow (report_length (answer_read answer)) }
    ensures { result ≡ code_of (report_length (answer_read answer)) }
{
    code(answer.map(length_of))
}

// The longest text whose length is told from a refusal.
const MOST_TOLD: usize = sizes::CODE_LINES - 1;

// A longer text of a plan counts as longer than its buffer.
pub fn limit_plan(text: &mut [u8], written: Result<usize, Refusal>) -> Result<usize, Refusal>
    ensures { Limits No.plan_long (answer_read written) text.old text.new (answer_read result) }
{
    match written {
        Ok(n) if MOST_TOLD < n => writer::refuse(text, Cause::PlanLong.at(0)),
        _ => written,
    }
}

// The line that an advice names, 0 where none is allowed.
fn line_number(found: Option<Advice>) -> usize
    ensures { result ≡ advice_line found }
{
    match found {
        Some(advice) => advice.line as usize,
        None => 0,
    }
}

// An advice, or a refusal, by one number.
pub fn advised_code(advised: Result<Option<Advice>, Refusal>) -> u64
    requires { LineBelow (line_read (answer_read advised)) }
    ensures { result ≡ code_of (line_read (answer_read advised)) }
{
    code(advised.map(line_number))
}

// 1 where the sweeps went on, 0 where the netlist was analysed from the beginning.
fn course_number(course: Course) -> usize
    ensures { result ≡ course_number course }
{
    match course {
        Course::WentOn => 1,
        Course::BegunAgain => 0,
    }
}

// Which course a change took, or the refusal, by one number.
pub fn change_code(changed: Result<Course, Refusal>) -> u64
    requires { LineBelow (told_number (changed_read changed)) }
    ensures { result ≡ code_of (told_number (changed_read changed)) }
{
    code(changed.map(course_number))
}
