// Reads a stored drawing from standard input and prints its listing. All of its work is in store, listing and rowtext, and in stream, by which
// bytes come and go.
#![tactic(auto)]

ghost use Rattle.std.specs.Prelude.{◌≡◌, ◌*◌, ◌-◌, ◌≤◌, IfOk, IfSome, OnOk, true};
ghost use Rattle.sheet.specs.Limits.{most};
ghost use Rattle.sheet.specs.Lists.{width, row_width};
ghost use Rattle.store.specs.Stored.{read_drawing};
ghost use Rattle.rowtext.specs.Put.{row_most};
ghost use Rattle.stream.specs.Status.{MayTell};
ghost use Rattle.list.specs.Asked.{of_most, rows_asked, ListsInput, ToldOfAll};

use sheet::Object;
use sheet::refusal::Unfilled;
use std::env::{Env, FillError};
use std::io::{Read, Write};
use std::time::Clock;
use stream::front;
use stream::input::{Unread, read_bytes};
use stream::output::{Output, Unwritten};
use stream::status::{Status, status_of, tell};

// The numbers of the most objects.
const NUMBERS: usize = Object::MOST * Object::WIDTH;
// The others that an object can share something with.
const OTHERS: usize = Object::MOST - 1;
// The numbers of the rows of one object, and the bytes of their text at its longest.
const ROWS: usize = OTHERS * sheet::lists::ROW_WIDTH;

const TEXT: usize = OTHERS * rowtext::ROW_MOST;

// That joints are asked for.
const JOINTS: bool = true;

// The argument that asks for the program's status, and is printed in front of the listing.
const HEAD: usize = 1;
// The bytes that it has at most.
const LONGEST_HEAD: usize = 65536;

// Prints a text, where all before it went.
fn print<W: Write>(
    rt: &(impl Clock + Eprint),
    out: &mut Output<'_, W>,
    text: &[u8],
) -> Result<(), Unwritten>
    requires { out.old.whole ≡ true }
    ensures { OnOk result (out.new.whole ≡ true) }
{
    out.hand_on(rt, text)
}

// Prints that argument, which the command `./list` makes the line that names a file.
fn say_head<W: Write>(
    rt: &(impl Env + Clock + Eprint),
    out: &mut Output<'_, W>,
) -> Result<(), Unwritten>
    requires { out.old.whole ≡ true }
    ensures { OnOk result (out.new.whole ≡ true) }
{
    let mut text = [0u8; LONGEST_HEAD];
    match rt.arg(HEAD, &mut text) {
        Ok(n) => print(rt, out, &text[..n]),
        Err(FillError::NotPresent) => Ok(()),
        Err(FillError::TooLong) => {
            let _ = rt.eprintln("list: the line that names a file: File name too long");
            Err(Unwritten { length: 0 })
        }
    }
}

// Prints the line that `put` puts, for which there is room.
fn say_line<W: Write, F: FnOnce(&mut [u8]) -> Result<usize, Unfilled>>(
    rt: &(impl Clock + Eprint),
    out: &mut Output<'_, W>,
    put: F,
) -> Result<(), Unwritten>
    requires whole { out.old.whole ≡ true }
    requires put { F.IsAlwaysCallable put }
    ensures { OnOk result (out.new.whole ≡ true) }
{
    let mut text = [0u8; rowtext::LINE_MOST];
    let n = put(&mut text).unwrap_or(0);
    print(rt, out, &text[..front(n, &text)])
}

// Prints the rows of object i with all later ones, and answers how many. A listing counts joints: it asks for them.
fn say_rows<W: Write>(
    rt: &(impl Clock + Eprint),
    out: &mut Output<'_, W>,
    list: &[i64],
    i: usize,
) -> Result<usize, Unwritten>
    requires { out.old.whole ≡ true }
    ensures whole { OnOk result (out.new.whole ≡ true) }
    ensures rows { IfOk result (λ n. (n ≤ most) × (n ≡ of_most (rows_asked list.now i))) }
{
    let mut rows = [0i64; ROWS];
    match listing::list_one(list, i, JOINTS, &mut rows) {
        Ok(listed) => {
            let mut text = [0u8; TEXT];
            let n = rowtext::put_rows(&rows[..front(listed.length, &rows)], &mut text).unwrap_or(0);
            print(rt, out, &text[..front(n, &text)])?;
            Ok(listed.rows.min(Object::MOST))
        }
        // No object of a drawing that was read is refused, and there is room for its rows.
        Err(_) => Ok(0),
    }
}

// Prints a listing. The clauses hold the program's buffers to what the definitions say that a sheet can need.
fn say_listing<W: Write>(
    rt: &(impl Clock + Eprint),
    out: &mut Output<'_, W>,
    list: &[i64],
    count: usize,
) -> Result<(), Unwritten>
    requires { out.old.whole ≡ true }
    ensures whole { OnOk result (out.new.whole ≡ true) }
    ensures value { NUMBERS ≡ most * width }
    ensures value_2 { (ROWS ≡ (most - 1) * row_width) × (TEXT ≡ (most - 1) * row_most) }
{
    say_line(rt, out, |text| rowtext::put_objects(count as u64, text))?;
    let mut total: usize = 0;
    for i in 0..count.min(Object::MOST) {
        total += say_rows(rt, out, list, i)?;
    }
    say_line(rt, out, |text| rowtext::put_count(total as u64, text))
}

// Prints what was read of a drawing: its listing, or that it is refused.
fn say_read<W: Write>(
    rt: &(impl Env + Clock + Eprint),
    out: &mut Output<'_, W>,
    read: Result<store::Read, Unfilled>,
    list: &[i64],
) -> Result<(), Unwritten>
    requires { out.old.whole ≡ true }
    ensures { OnOk result (out.new.whole ≡ true) }
{
    say_head(rt, out)?;
    match read {
        Ok(read) => say_listing(rt, out, &list[..front(read.length, list)], read.count),
        Err(unfilled) => {
            let number = i64::from(unfilled);
            say_line(rt, out, |text| rowtext::put_refused(number, text))
        }
    }
}

// Prints the listing of a drawing, and answers the program's status.
fn say_drawing<W: Write>(
    rt: &(impl Env + Clock + Eprint),
    out: &mut Output<'_, W>,
    bytes: &[u8],
) -> Status
    requires { out.old.whole ≡ true }
    ensures tells { MayTell (read_drawing bytes.now).refusal result }
    ensures whole { ToldOfAll result out.new.whole }
{
    let mut list = [0i64; NUMBERS];
    let read = store::read_drawing(bytes, &mut list);
    let sent = say_read(rt, out, read, &list);
    let refusal = read.err().map_or(0, i64::from);
    status_of(sent, refusal)
}

// Reads the input, prints its listing, and answers the program's status. It reads one byte more than a drawing can have, so that an input that
// is too long is seen; store's `beginning-decides` says that its beginning is refused as the whole is.
fn list_input<R: Read, W: Write>(
    rt: &(impl Env + Clock + Eprint),
    from: &mut R,
    out: &mut Output<'_, W>,
) -> Status
    requires { out.old.whole ≡ true }
    ensures tells { IfSome (R.remaining from.old) (ListsInput result) }
    ensures whole { ToldOfAll result out.new.whole }
{
    let mut bytes = [0u8; store::LONGEST + 1];
    match read_bytes(rt, from, b"list: standard input", &mut bytes) {
        Ok(got) => say_drawing(rt, out, &bytes[..got]),
        Err(Unread) => Status::Unread,
    }
}

fn main(rt: HostRuntime) {
    let mut out = Output {
        to: rt.stdout(),
        what: b"list: standard output",
        whole: true,
    };
    let status = list_input(&rt, &mut rt.stdin(), &mut out);
    tell(&rt, HEAD, status);
}
