// What the program `plan` prints (document 02, request 6/12): the entries of the plan, one a line, and its number of cycles, or the refusal.
#![tactic(auto)]

ghost use Rattle.std.specs.Prelude.{◌≡◌, length};
ghost use Rattle.std.proofs.lemmas.List.Edits.{sets};
ghost use Rattle.entries.specs.Printed.{PrintsPlan};
ghost use Rattle.entries.specs.Lines.{outcome_lines, Ready};

use record::PlanAnswer;

mod lines;
mod list;
mod output;
mod reading;

// Enough for whatever is printed: of each page a program's line, at most four erases' lines, a last line.
pub const ROOM: usize = (2 * page::FLASH_PAGE as usize + 16) * page::CHIP_PAGES as usize + 256;

// Kept: `planner::plan` answers a number by the C interface, so 0 is compared here.
// What the call of the plan gave, from the output's start on: by its answer the entries' lines and their number, or the refusal. How many bytes.
fn print_outcome(answer: u32, list: &[u8], res: &[u8], out: &mut [u8]) -> usize
    requires { Ready answer list.now res.now (length out.old) }
    ensures { (result ≡ length (outcome_lines answer list.now res.now)) × (out.new ≡ sets out.old 0 (outcome_lines answer list.now res.now)) }
{
    if answer != 0 {
        return output::copy_line(lines::refusal_line(answer), out, 0);
    }
    let number = reading::number_at(res, 4);
    let at = list::print_entries(list, number, out);
    output::copy_line(lines::cycles_line(number), out, at)
}

// Prints the plan that refills a chip of the present content with the wanted one, under the status that the text spells; gives back how many bytes. The list has
// room for every plan. The output has to have room for whatever is printed.
pub fn print_plan(present: &[u8], wanted: &[u8], status: &[u8], out: &mut [u8]) -> usize
    ensures { PrintsPlan present.now wanted.now status.now out.old out.new result }
{
    let read = reading::status_in(status);
    if out.len() < ROOM {
        return 0;
    }
    let Some(bits) = read else {
        // The call would refuse it first.
        let refusal = lines::refusal_line(u32::from(PlanAnswer::Unfit));
        return output::copy_line(refusal, out, 0);
    };
    let mut list = [0u8; planner::ROOM];
    let mut result = [0u8; record::PLAN_RESULT];
    let answer = planner::plan(present, wanted, bits, &mut list, &mut result);
    print_outcome(answer, &list, &result, out)
}
