// The statements of a text one after the other, up to the first fault: the symbols of all, and the lines of their clauses.
ghost use Rattle.std.specs.Prelude.{◌≡◌, ◌+◌, ◌≤◌, ◌<◌, ◌^◌, length};
ghost use Rattle.text.specs.Put.{put};
ghost use Rattle.syntax.specs.Signatures.{signature_in};
ghost use Rattle.syntax.specs.Codes.{words_in};
ghost use Rattle.sheet_text.specs.Parts.{ShortNames, Writable, clause_line};
ghost use Rattle.argument_lists.specs.Lists.{Room, KeepsSlices};
ghost use Rattle.importing.specs.Surveys.{StatementStands, StatementChecked, Surveyed};

use crate::faults::TextFault;
use crate::noting::note_statement;
use crate::words::words_of;
use argument_lists::pass::Lists;
use clauses::clause::{kept_codes, within_limits};
use declaring::symbols::{Symbols, none};
use sheet_text::clause_lines::{clause_line_length, put_clause_line};
use statements::follow::{Followed, follow};
use syntax::faults::Fault;
use syntax::limits::Problem;
use syntax::signature::Signature;
use syntax::words::ClauseWords;

// The symbols after a statement and the words of its clause.
#[derive(Drop)]
pub struct Checked {
    pub table: Symbols,
    pub words: ClauseWords,
}

// The symbols of the statements, how many there are, and the length of their lines.
#[derive(Clone, Copy)]
pub struct Survey {
    pub table: Symbols,
    pub count: usize,
    pub length: usize,
}

// A whole statement after `count` others: one too many, its symbols and variables, its words, literals and flattened variables.
fn check_statement(
    text: &[u8],
    start: usize,
    stop: usize,
    count: usize,
    before: Symbols,
    lists: &mut Lists,
) -> Result<Checked, TextFault>
    requires { StatementStands text.now start stop before × Room lists.old.counts.now lists.old.links.now }
    ensures checked { StatementChecked text.now start stop count before result }
    ensures same_slices { KeepsSlices lists.old lists.new }
{
    if Problem::MAX_CLAUSES <= count {
        return Err(TextFault {
            fault: Fault::TextLimits,
            place: start,
        });
    }
    let table = note_statement(text, start + 3, before, lists)?;
    let signature = table.signature;
    let w = words_of(text, start + 3, signature);
    if Problem::MAX_WORDS < w.count || !within_limits(signature, w) {
        return Err(TextFault {
            fault: Fault::TextLimits,
            place: stop,
        });
    }
    Ok(Checked {
        table,
        words: kept_codes(w),
    })
}

// The line of a clause behind those before it, where there is room for it, and the length of all.
fn add_line(
    lines: &mut [u8],
    at: usize,
    text: &[u8],
    signature: Signature,
    words: ClauseWords,
) -> usize
    requires { ShortNames signature × (Writable text.now signature words × (at + 840 < 2 ^ 64)) }
    ensures length { result ≡ at + length (clause_line (signature_in text.now signature) (words_in words)) }
    ensures short { result ≤ at + 840 }
    ensures written { result ≤ length lines.old → lines.new ≡ put lines.old at (clause_line (signature_in text.now signature) (words_in words)) }
{
    let end = at + clause_line_length(signature, words);
    if lines.len() < end {
        return end;
    }
    put_clause_line(lines, at, text, signature, words)
}

// The statements of a text; their lines are left at the front, where they have room there. Lists of arguments are noted in `lists`.
pub fn survey_statements(
    text: &[u8],
    lines: &mut [u8],
    lists: &mut Lists,
) -> Result<Survey, TextFault>
    requires { Room lists.old.counts.now lists.old.links.now }
    ensures surveyed { Surveyed text.now lines.new result }
    ensures same_slices { KeepsSlices lists.old lists.new }
{
    let mut table = none();
    let mut count: usize = 0;
    let mut length: usize = 0;
    let mut at: usize = 0;
    loop {
        match follow(text, at) {
            Followed::End => {
                return Ok(Survey {
                    table,
                    count,
                    length,
                });
            }
            Followed::Foreign(place) => {
                return Err(TextFault {
                    fault: Fault::Token,
                    place,
                });
            }
            Followed::Whole(start, stop, past) => {
                let checked = check_statement(text, start, stop, count, table, lists)?;
                table = checked.table;
                length = add_line(lines, length, text, table.signature, checked.words);
                count += 1;
                at = past;
            }
        }
    }
}
