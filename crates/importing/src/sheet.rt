// The sheet of a surveyed text: its length, and the writing of it, the head and then the clauses' lines.
ghost use Rattle.std.specs.Prelude.{◌≡◌, List, ℕ, ◌≤◌, length};
ghost use Rattle.text.specs.Put.{put};
ghost use Rattle.tptp.specs.Claims.Deciding.{sheet_of};
ghost use Rattle.importing.specs.Surveys.{CleanSurvey, LinesHeld};

use crate::survey::Survey;
use sheet_text::head::{head_length, put_head};
use text::writing::put_bytes;

// The length of the sheet.
pub fn sheet_length(survey: Survey) -> usize
    requires { (text : List ℕ) × CleanSurvey text survey }
    ensures { (text : List ℕ) → CleanSurvey text survey → result ≡ length (sheet_of text) }
{
    head_length(
        survey.table.signature,
        survey.table.functions,
        survey.count as u32,
    ) + survey.length
}

// The sheet, at the front of the output.
pub fn put_sheet(out: &mut [u8], text: &[u8], lines: &[u8], survey: Survey)
    requires clean_survey { CleanSurvey text.now survey × (LinesHeld text.now lines.now survey × (length (sheet_of text.now) ≤ length out.old)) }
    requires text_in_bounds { length (sheet_of text.now) ≤ length lines.now }
    ensures { out.new ≡ put out.old 0 (sheet_of text.now) }
{
    let signature = survey.table.signature;
    let at = put_head(
        out,
        0,
        text,
        signature,
        survey.table.functions,
        survey.count as u32,
    );
    let end = survey.length;
    put_bytes(out, at, &lines[0..end]);
}
