// The text that the listing program prints, put into lent bytes: rows, and lines with a count or a refusal. The definitions are in
// specs/Text.antt, what a call answers in specs/Put.antt, words and numbers in decimal. A call answers the length of its text.
//
// Each text is put twice by the same function (`put_fitting`): into no bytes, which gives its length, and then, where it fits, into the lent ones.
#![tactic(auto)]

ghost use Rattle.std.specs.Prelude.{◌≡◌, List, [], ◌∷◌, ◌++◌, ℕ, pos, length};
ghost use Rattle.sheet.specs.Lent.{filled, Wrote};
ghost use Rattle.sheet.specs.Lists.{row_width};
ghost use Rattle.decimal.specs.Decimal.{newline, sized};
ghost use Rattle.rowtext.specs.Text.{objects_word, rows_word, refused_word, shared_text, row_text, rows_text, count_line};
ghost use Rattle.rowtext.specs.Put.{row_most, line_most, rows_refusal, put_told, put_answer};
ghost use Rattle.rowtext.specs.PutEnd.{PutEnd, Puts};

use decimal::{put_fields, put_number, put_sized, put_text};
use sheet::lent::put_byte;
use sheet::lists::{ROW_WIDTH, SHARE_WIDTH};
use sheet::refusal::{Refusal, Unfilled};
use whole::size;

// The most bytes that the text of a row takes, whatever its numbers are.
pub const ROW_MOST: usize = 195;
// The most bytes that a line of a word and a number takes.
pub const LINE_MOST: usize = 29;

// What two objects share, from a row.
fn put_shared(row: &[i64], out: &mut [u8], at: usize) -> usize
    requires { length row.now ≡ row_width }
    ensures { Wrote out.old out.new at result (shared_text row.now) }
{
    let how = row[2];
    if how == 1 {
        let next = put_text(b" point", out, at);
        return put_fields(&row[3..SHARE_WIDTH], out, next);
    }
    put_text(b" many", out, at)
}

fn put_row(row: &[i64], out: &mut [u8], at: usize) -> usize
    requires { length row.now ≡ row_width }
    ensures { Wrote out.old out.new at result (row_text row.now) }
{
    let i = row[0];
    let first = put_number(i, out, at);
    let second = put_fields(&row[1..2], out, first);
    let shared = put_shared(row, out, second);
    let tags = put_fields(&row[SHARE_WIDTH..ROW_WIDTH], out, shared);
    put_byte(b'\n', out, tags)
}

// The text of all whole rows of a list.
fn put_all(rows: &[i64], out: &mut [u8]) -> usize
    ensures { Wrote out.old out.new 0 result (rows_text rows.now) }
{
    let mut next = 0;
    for row in rows.chunks_exact(ROW_WIDTH) {
        next = put_row(row, out, next);
    }
    next
}

// Puts a text into lent bytes that have room for it, and answers its length.
fn put_fitting<F: Fn(&mut [u8]) -> usize>(text: F, out: &mut [u8]) -> Result<usize, Unfilled>
    requires { F.IsAlwaysCallable text }
    ensures { (bytes : List ℕ) → Puts F.Fn text bytes → PutEnd (pos 0) bytes out.old (put_told result) out.new }
{
    let mut none = [0u8; 0];
    let needed = text(&mut none);
    if out.len() < needed {
        return Err(Unfilled::NoRoom(needed));
    }
    Ok(text(out))
}

// The text of all rows of a list, ROW_WIDTH numbers a row. Refused with 14 where the list is no list of rows.
pub fn put_rows(rows: &[i64], out: &mut [u8]) -> Result<usize, Unfilled>
    ensures answer { put_told result ≡ put_answer (rows_refusal rows.now) (rows_text rows.now) out.old }
    ensures bytes { out.new ≡ filled (rows_refusal rows.now) (rows_text rows.now) out.old }
    ensures longest { ROW_MOST ≡ row_most }
{
    if rows.len() % ROW_WIDTH != 0 {
        return Err(Unfilled::Refused(Refusal::ListLength));
    }
    put_fitting(|bytes| put_all(rows, bytes), out)
}

// A word, which ends in a blank, and a number.
fn put_word(word: &[u8], below: bool, n: u64, out: &mut [u8]) -> usize
    ensures { Wrote out.old out.new 0 result (word.now ++ sized below n ++ (newline ∷ [])) }
{
    let number = put_text(word, out, 0);
    let end = put_sized(below, n, out, number);
    put_byte(b'\n', out, end)
}

// The line of a word and a number.
fn put_line(word: &[u8], below: bool, n: u64, out: &mut [u8]) -> Result<usize, Unfilled>
    ensures { PutEnd (pos 0) (word.now ++ sized below n ++ (newline ∷ [])) out.old (put_told result) out.new }
{
    put_fitting(|bytes| put_word(word, below, n, bytes), out)
}

// The first line of a listing: `objects` and the count.
pub fn put_objects(n: u64, out: &mut [u8]) -> Result<usize, Unfilled>
    ensures answer { put_told result ≡ put_answer (pos 0) (count_line objects_word (pos n)) out.old }
    ensures bytes { out.new ≡ filled (pos 0) (count_line objects_word (pos n)) out.old }
{
    put_line(b"objects ", false, n, out)
}

// The last line of a listing: `rows` and the count.
pub fn put_count(n: u64, out: &mut [u8]) -> Result<usize, Unfilled>
    ensures answer { put_told result ≡ put_answer (pos 0) (count_line rows_word (pos n)) out.old }
    ensures bytes { out.new ≡ filled (pos 0) (count_line rows_word (pos n)) out.old }
{
    put_line(b"rows ", false, n, out)
}

// The only line for refused input: `refused` and the number.
pub fn put_refused(n: i64, out: &mut [u8]) -> Result<usize, Unfilled>
    ensures answer { put_told result ≡ put_answer (pos 0) (count_line refused_word n) out.old }
    ensures bytes { out.new ≡ filled (pos 0) (count_line refused_word n) out.old }
    ensures longest { LINE_MOST ≡ line_most }
{
    put_line(b"refused ", n < 0, size(n), out)
}
