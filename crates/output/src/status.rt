// The program's exit status.
ghost use Rattle.std.specs.Prelude.{◌≡◌};
ghost use Rattle.output.specs.Status.{plain_of, asked_of, said_of, status_of, is_whole};

use crate::page::Page;

// What a command came to. A question that can be asked by status has the answers yes, which is Answered, and No; Unsure is neither: it
// was answered that the room did not suffice to tell.
#[derive(Clone, Copy, Debug, PartialEq, Eq)]
pub enum Answer {
    Answered,
    No,
    Unsure,
    Refused,
    Failed,
}

// An output that was not written whole.
const TORN: u8 = 2;

fn told(a: Answer) -> u8
    ensures { result ≡ plain_of a }
{
    match a {
        Answer::Answered => 0,
        Answer::No => 0,
        Answer::Unsure => 0,
        Answer::Refused => 1,
        Answer::Failed => 2,
    }
}

fn asked_for(a: Answer) -> u8
    ensures { result ≡ asked_of a }
{
    match a {
        Answer::Answered => 0,
        Answer::No => 1,
        Answer::Unsure => 2,
        Answer::Refused => 2,
        Answer::Failed => 2,
    }
}

fn said(asked: bool, a: Answer) -> u8
    ensures { result ≡ said_of asked a }
{
    if asked {
        return asked_for(a);
    }
    told(a)
}

// The status of an answer, which may be asked for as yes or no; was the output written whole?
pub fn status(asked: bool, a: Answer, whole: bool) -> u8
    ensures { result ≡ status_of asked a whole }
{
    let s = said(asked, a);
    if whole {
        return s;
    }
    TORN
}

// The status told last: what is left of the page is written out, and the page says whether everything was.
pub fn ended(page: &mut Page, asked: bool, a: Answer) -> u8
    ensures { result ≡ status_of asked a (is_whole page.new) }
{
    let whole = page.flush();
    status(asked, a, whole)
}
