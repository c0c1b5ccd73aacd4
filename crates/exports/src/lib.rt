// The operations for C: `include/nesskettle.h` has the declarations. Each entry is its call, and the answer laid out as a struct of numbers (`layouts`).
#![tactic(auto)]

ghost use Rattle.std.specs.Prelude.{◌≡◌};
ghost use Rattle.theory.specs.Operations as theory;
ghost use Rattle.exports.specs.Exported.{FindExport, FromSolverExport, LeastFormExport, MergeExport, PlainExport, ReadBackExport, RenumberExport, SettingExport, TptpExport, WriteExport};
ghost use Rattle.layouts.specs.Layouts.{read_out, judge_out, explain_out};

use layouts::{
    ExplainOut, FindOut, JudgeOut, MergeOut, ReadOut, WriteOut, explain_out, find_out, judge_out,
    merge_out, plain_out, read_out, solver_out, write_out,
};

#[unsafe(no_mangle)]
pub extern "C" fn nk_read(sheet: &[u8]) -> ReadOut
    ensures { result ≡ read_out (theory.read_answer sheet.now) }
{
    read_out(nesskettle::read(sheet))
}

#[unsafe(no_mangle)]
pub extern "C" fn nk_judge(sheet: &[u8], case: &[u8]) -> JudgeOut
    ensures { result ≡ judge_out (theory.judge_answer sheet.now case.now) }
{
    judge_out(nesskettle::judge(sheet, case))
}

#[unsafe(no_mangle)]
pub extern "C" fn nk_explain(sheet: &[u8], case: &[u8]) -> ExplainOut
    ensures { result ≡ explain_out (theory.explain_answer sheet.now case.now) }
{
    explain_out(nesskettle::explain(sheet, case))
}

#[unsafe(no_mangle)]
pub extern "C" fn nk_write(
    sheet: &[u8],
    size: u64,
    named: u32,
    symmetry: u32,
    output: &mut [u8],
) -> WriteOut
    ensures { WriteExport sheet.now size named symmetry result output.old output.new }
{
    write_out(nesskettle::write(sheet, size, named != 0, symmetry != 0, output))
}

#[unsafe(no_mangle)]
pub extern "C" fn nk_read_back(
    sheet: &[u8],
    size: u64,
    named: u32,
    setting: &[u8],
    output: &mut [u8],
) -> WriteOut
    ensures { ReadBackExport sheet.now size named setting.now result output.old output.new }
{
    write_out(nesskettle::read_back(sheet, size, named != 0, setting, output))
}

#[unsafe(no_mangle)]
pub extern "C" fn nk_setting(sheet: &[u8], case: &[u8], output: &mut [u8]) -> WriteOut
    ensures { SettingExport sheet.now case.now result output.old output.new }
{
    write_out(nesskettle::setting(sheet, case, output))
}

#[unsafe(no_mangle)]
pub extern "C" fn nk_renumber(sheet: &[u8], case: &[u8], list: &[u8], output: &mut [u8]) -> WriteOut
    ensures { RenumberExport sheet.now case.now list.now result output.old output.new }
{
    write_out(nesskettle::renumber(sheet, case, list, output))
}

#[unsafe(no_mangle)]
pub extern "C" fn nk_least_form(sheet: &[u8], case: &[u8], output: &mut [u8]) -> WriteOut
    ensures { LeastFormExport sheet.now case.now result output.old output.new }
{
    write_out(nesskettle::least_form(sheet, case, output))
}

#[unsafe(no_mangle)]
pub extern "C" fn nk_find(
    sheet: &[u8],
    low: u64,
    high: u64,
    named: u32,
    symmetry: u32,
    allowance: u64,
    work: &mut [u32],
    output: &mut [u8],
) -> FindOut
    ensures { FindExport sheet.now low high named symmetry allowance result work.old work.new output.old output.new }
{
    let answer = nesskettle::find(
        sheet,
        low,
        high,
        named != 0,
        symmetry != 0,
        allowance,
        work,
        output,
    );
    find_out(answer)
}

#[unsafe(no_mangle)]
pub extern "C" fn nk_find_plain(sheet: &[u8], low: u64, high: u64, output: &mut [u8]) -> FindOut
    ensures { PlainExport sheet.now low high result output.old output.new }
{
    plain_out(nesskettle::find_plain(sheet, low, high, output))
}

#[unsafe(no_mangle)]
pub extern "C" fn nk_from_tptp(text: &[u8], output: &mut [u8]) -> WriteOut
    ensures { TptpExport text.now result output.old output.new }
{
    write_out(nesskettle::from_tptp(text, output))
}

#[unsafe(no_mangle)]
pub extern "C" fn nk_from_solver(
    sheet: &[u8],
    size: u64,
    text: &[u8],
    output: &mut [u8],
) -> WriteOut
    ensures { FromSolverExport sheet.now size text.now result output.old output.new }
{
    solver_out(nesskettle::from_solver(sheet, size, text, output))
}

#[unsafe(no_mangle)]
pub extern "C" fn nk_merge(first: &[u8], second: &[u8], output: &mut [u8]) -> MergeOut
    ensures { MergeExport first.now second.now result output.old output.new }
{
    merge_out(nesskettle::merge(first, second, output))
}
