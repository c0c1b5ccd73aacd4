// A solver's reply, read in one pass with a mark for each variable: the claim that there is no model, or the setting that it states.
#![tactic(auto)]

pub mod lines;
pub mod numbers;
pub mod stages;
pub mod words;

ghost use Rattle.std.specs.Prelude.{◌≡◌, ◌^◌, ◌<◌, ltb, length};
ghost use Rattle.std.specs.List.{list_all};
ghost use Rattle.theory.specs.Program.{◌>>?◌};
ghost use Rattle.solver.specs.Replies.{read_reply};
ghost use Rattle.solver.specs.OnePass.{on_end, complete, reply_at};
ghost use Rattle.replies.specs.Hearing.{heard_in, reply_in, values_in};

use lines::hear_lines;
use stages::Stage;
use words::UNSET;

// It claims that there is no model, it states the setting that the marks then are, or it is not as laid out.
#[derive(Drop)]
pub enum Reply {
    ClaimsNone,
    States,
    Bad,
}

// The reply of a text; there is a mark for each variable.
pub fn read_reply(text: &[u8], marks: &mut [u8]) -> Reply
    requires { length marks.old < 2 ^ 28 }
    ensures { reply_in result marks.new ≡ read_reply (length marks.old) text.now }
{
    marks.fill(UNSET);
    let stage = hear_lines(text, marks);
    reply_at(stage, marks)
}

// The reply at the end of the text.
fn reply_at(stage: Stage, marks: &[u8]) -> Reply
    ensures { reply_in result marks.now ≡ (heard_in stage marks.now >>? on_end) }
{
    match stage {
        Stage::Refuted => Reply::ClaimsNone,
        Stage::Complete => stated(marks),
        Stage::Unanswered | Stage::Listing | Stage::Fault => Reply::Bad,
    }
}

// The setting, if every variable is set.
fn stated(marks: &[u8]) -> Reply
    ensures { reply_in result marks.now ≡ reply_at complete (values_in marks.now) }
{
    if all_set(marks) {
        return Reply::States;
    }
    Reply::Bad
}

// Every variable is set.
fn all_set(marks: &[u8]) -> bool
    ensures { result ≡ list_all (λ b. ltb b 2) marks.now }
{
    marks.iter().all(|mark| *mark < UNSET)
}
