// The symbols of a statement, put into the table one occurrence after the other, up to the first fault.
ghost use Rattle.std.specs.Prelude.{◌≤◌, length, [], ◌∷◌};
ghost use Rattle.tptp.specs.Grammar.{opening};
ghost use Rattle.declaring.specs.Tables.{LimitedTable, symbol_occurrence};
ghost use Rattle.declaring.specs.Letters.{Lettered, variable_occurrence};
ghost use Rattle.statements.specs.Follows.{Inside};
ghost use Rattle.scanning.specs.Entries.{occurrences_in};
ghost use Rattle.scanning.specs.Taking.{name_in};
ghost use Rattle.argument_lists.specs.Lists.{Room, KeepsSlices};
ghost use Rattle.argument_lists.specs.Told.{ToldAt};
ghost use Rattle.importing.specs.Noting.{NamedArity, occurrences_from, OccurrencesNoted, StatementNoted};

use crate::faults::TextFault;
use argument_lists::arity::{Arity, ToldPlaces, arity_at, nothing_told, told_after};
use argument_lists::pass::Lists;
use declaring::letters::{Letters, letter_of, none};
use declaring::symbols::{Symbols, declare};
use scanning::entries::Named;
use scanning::taking::{Taken, take_token};
use statements::due::Due;
use syntax::faults::Fault;

// The symbols and variables after an occurrence.
#[derive(Clone, Copy)]
pub struct Noted {
    pub table: Symbols,
    pub letters: Letters,
}

// A variable: the ninth is one too many.
fn note_variable(text: &[u8], noted: Noted, start: usize, end: usize) -> Result<Noted, Fault>
    requires { LimitedTable text.now noted.table × (Lettered text.now noted.letters × ((start ≤ end) × (end ≤ length text.now))) }
    ensures { OccurrencesNoted text.now noted.table noted.letters (variable_occurrence text.now start end ∷ []) start result }
{
    let found = letter_of(text, noted.letters, start, end).ok_or(Fault::TextLimits)?;
    Ok(Noted {
        letters: found.letters,
        ..noted
    })
}

// A symbol.
fn note_symbol(
    text: &[u8],
    noted: Noted,
    start: usize,
    end: usize,
    function: bool,
    arity: usize,
) -> Result<Noted, Fault>
    requires { LimitedTable text.now noted.table × (Lettered text.now noted.letters × ((start ≤ end) × (end ≤ length text.now))) }
    ensures { OccurrencesNoted text.now noted.table noted.letters (symbol_occurrence text.now start end function arity ∷ []) start result }
{
    let table = declare(text, noted.table, start, end, function, arity)?;
    Ok(Noted { table, ..noted })
}

// What a token names, a symbol with so many arguments.
fn note_named(
    text: &[u8],
    noted: Noted,
    named: Named,
    arity: usize,
    start: usize,
    end: usize,
) -> Result<Noted, Fault>
    requires { LimitedTable text.now noted.table × (Lettered text.now noted.letters × ((start ≤ end) × (end ≤ length text.now))) }
    ensures { OccurrencesNoted text.now noted.table noted.letters (occurrences_in (name_in text.now start end) arity named) start result }
{
    match named {
        Named::Nothing => Ok(noted),
        Named::Variable => note_variable(text, noted, start, end),
        Named::Symbol(function) => note_symbol(text, noted, start, end, function, arity),
    }
}

// How many arguments what a token names has, if it is a symbol.
fn arity_of(text: &[u8], end: usize, named: Named, told: ToldPlaces, lists: &mut Lists) -> Arity
    requires { (end ≤ length text.now) × (Room lists.old.counts.now lists.old.links.now × ToldAt text.now end lists.old.counts.now told) }
    ensures told { NamedArity text.now end named lists.new.counts.now result }
    ensures same_slices { KeepsSlices lists.old lists.new }
{
    match named {
        Named::Symbol(_) => arity_at(text, end, lists, told),
        Named::Nothing | Named::Variable => Arity { count: 0, told },
    }
}

// The statement from the place after its cnf on, up to its first fault.
pub fn note_statement(
    text: &[u8],
    at: usize,
    before: Symbols,
    lists: &mut Lists,
) -> Result<Symbols, TextFault>
    requires { LimitedTable text.now before × (Inside text.now opening at × Room lists.old.counts.now lists.old.links.now) }
    ensures noted { StatementNoted text.now before (occurrences_from text.now opening at) result }
    ensures same_slices { KeepsSlices lists.old lists.new }
{
    let mut noted = Noted {
        table: before,
        letters: none(),
    };
    let mut told = nothing_told();
    let mut due = Due::Opening;
    let mut i = at;
    while let Some(taken) = take_token(text, i, due) {
        let Taken {
            entries,
            opens,
            start,
            end,
            due: next,
        } = taken;
        let named = entries.named;
        let arity = arity_of(text, end, named, told_after(told, opens), lists);
        told = arity.told;
        noted = note_named(text, noted, named, arity.count, start, end).map_err(|fault| {
            TextFault {
                fault,
                place: start,
            }
        })?;
        due = next;
        i = end;
    }
    Ok(noted.table)
}
