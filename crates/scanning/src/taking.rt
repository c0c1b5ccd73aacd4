// One token more of a whole statement: what it adds to the clause, and where to go on.
ghost use Rattle.statements.specs.Dues.{due_token_in};
ghost use Rattle.statements.specs.Follows.{Inside};
ghost use Rattle.scanning.specs.Taking.{TakenFrom};

use crate::entries::{Entries, entries_at};
use statements::after::after;
use statements::due::Due;
use statements::kinds::is;
use tokens::next::{Token, next_token};
use tokens::pieces::Kind;

// A token: what it adds, whether it is a (, its place and the place after it, and what is due then.
#[derive(Drop)]
pub struct Taken {
    pub entries: Entries,
    pub opens: bool,
    pub start: usize,
    pub end: usize,
    pub due: Due,
}

// The next token of a statement that is whole, so that it is there and may stand there; none where it is the full stop.
pub fn take_token(text: &[u8], at: usize, due: Due) -> Option<Taken>
    requires { Inside text.now (due_token_in due) at }
    ensures { TakenFrom text.now (due_token_in due) at result }
{
    let Token { kind, start, end } = next_token(text, at)?;
    if is(Kind::FullStop, kind) {
        return None;
    }
    let next = after(due, kind, false)?;
    Some(Taken {
        entries: entries_at(text, due, kind, end),
        opens: is(Kind::LeftParen, kind),
        start,
        end,
        due: next,
    })
}
