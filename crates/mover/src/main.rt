// Reads a stored drawing of either form from standard input, moves it to the form that its first argument names, and writes the moved bytes to
// standard output. All of its work is in store, and in stream, by which bytes come and go.
#![tactic(auto)]

ghost use Rattle.std.specs.Prelude.{◌≡◌, true, is_ok, pos, IfSome};
ghost use Rattle.stream.specs.Stream.{FrontWent};
ghost use Rattle.store.specs.Stored.{move_refusal, moved};
ghost use Rattle.mover.specs.Told.{Asks, TellsMove, WritesMove, MovesInput};

use sheet::refusal::Unfilled;
use std::env::Env;
use std::io::{Read, Write};
use std::str;
use std::time::Clock;
use store::Form;
use stream::front;
use stream::input::{Unread, read_bytes};
use stream::output::{Output, Unwritten};
use stream::status::{Status, status_of, tell};

// The argument that names the form, and the one that asks for the program's status.
const FORM: usize = 1;

const STATUS: usize = 2;

// The letters of a form's name. An argument that is longer names none.
const LETTERS: usize = 3;

// The form that a word asks for.
fn asked_by(word: &[u8]) -> Option<Form>
    ensures { Asks word.now result }
{
    if word == b"new".as_slice() {
        return Some(Form::New);
    }
    if word == b"old".as_slice() {
        return Some(Form::Old);
    }
    None
}

// The form that the program's argument asks for.
fn first_argument(rt: &impl Env) -> Option<Form> {
    let mut word = [0u8; LETTERS];
    let n = rt.arg(FORM, &mut word).ok()?;
    asked_by(&word[..n])
}

// Says that a drawing is refused. Standard output is for moved bytes alone. There is room for every such line.
fn say_refused(rt: &impl Eprint, unfilled: Unfilled) {
    let mut text = [0u8; rowtext::LINE_MOST];
    let n = rowtext::put_refused(i64::from(unfilled), &mut text).unwrap_or(0);
    if let Ok(line) = str::from_utf8(&text[..front(n, &text)]) {
        let _ = rt.eprint(line);
    }
}

// Writes the moved bytes of a drawing that is not refused. It takes the drawing too, so that what it is handed is known to be that.
fn hand_moved<W: Write>(
    rt: &(impl Clock + Eprint),
    out: &mut Output<'_, W>,
    drawing: &[u8],
    form: Form,
    bytes: &[u8],
) -> Result<(), Unwritten>
    requires whole { out.old.whole ≡ true }
    requires drawing_value { move_refusal form drawing.now ≡ pos 0 }
    requires bytes_value { bytes.now ≡ moved form drawing.now }
    ensures { FrontWent (is_ok result) (W.contents out.old.to) (W.contents out.new.to) bytes.now }
{
    out.hand_on(rt, bytes)
}

// Moves a drawing, and answers the program's status.
fn move_bytes<W: Write>(
    rt: &(impl Clock + Eprint),
    out: &mut Output<'_, W>,
    drawing: &[u8],
    form: Form,
) -> Status
    requires { out.old.whole ≡ true }
    ensures tells { TellsMove (move_refusal form drawing.now) result }
    ensures writes { WritesMove (move_refusal form drawing.now) result (W.contents out.old.to) (W.contents out.new.to) (moved form drawing.now) }
{
    let mut lent = [0u8; store::LONGEST];
    match store::move_drawing(drawing, form, &mut lent) {
        Ok(n) => status_of(hand_moved(rt, out, drawing, form, &lent[..n]), 0),
        Err(unfilled) => {
            say_refused(rt, unfilled);
            Status::Refused
        }
    }
}

// Reads the input, moves it, and answers the program's status. It reads one byte more than a drawing can have, so that an input that is too
// long is seen; store's `beginning-decides` says that its beginning is refused as the whole is.
fn move_input<R: Read, W: Write>(
    rt: &(impl Clock + Eprint),
    from: &mut R,
    out: &mut Output<'_, W>,
    form: Form,
) -> Status
    requires { out.old.whole ≡ true }
    ensures { IfSome (R.remaining from.old) (MovesInput form result (W.contents out.old.to) (W.contents out.new.to)) }
{
    let mut bytes = [0u8; store::LONGEST + 1];
    match read_bytes(rt, from, b"move: standard input", &mut bytes) {
        Ok(got) => move_bytes(rt, out, &bytes[..got], form),
        Err(Unread) => Status::Unread,
    }
}

fn main(rt: HostRuntime) {
    let mut out = Output {
        to: rt.stdout(),
        what: b"move: standard output",
        whole: true,
    };
    let status = match first_argument(&rt) {
        Some(form) => move_input(&rt, &mut rt.stdin(), &mut out, form),
        None => {
            let _ = rt.eprintln("move: the form to move to is new or old");
            Status::Unread
        }
    };
    tell(&rt, STATUS, status);
}
