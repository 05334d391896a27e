// Calls for bench/ and tests/, so that a C program can time the listing and the stored drawings, and compare stored numbers, places and boxes.
// C takes no enum, so a refusal is a number here, beside the others.
#![tactic(auto)]

mod numbers;

ghost use Rattle.std.specs.Prelude.{◌≡◌, length};
ghost use Rattle.listing.specs.Rows.{rows_with, rows_of, sharing_with, sharing};
ghost use Rattle.sheet.specs.Lent.{filled, Wrote};
ghost use Rattle.sheet.specs.Lists.{list_refusal};
ghost use Rattle.listing.specs.Listing.{one_refusal, listed};
ghost use Rattle.number.specs.Number.{write_numbers, read_number, number_of};
ghost use Rattle.store.specs.Stored.{read_drawing};
ghost use Rattle.store.specs.Answers.{read_answer, read_into, write_answer, write_into, move_answer, move_into};
ghost use Rattle.trial.specs.Numbers.{form_from, form_told, counts_of, two_of, three_of, place_answer, box_answer};

use numbers::{form_from, form_number};
use sheet::Point;

// A place or a box: the refusal or 0, the side number or the flag, and the floats, from the front.
#[repr(C)]
#[derive(Clone, Copy)]
pub struct SixNumbers {
    pub refusal: i64,
    pub number: i64,
    pub first: f64,
    pub second: f64,
    pub third: f64,
    pub fourth: f64,
}

// What a listing answers: the refusal or 0, how many rows, and how many numbers they are, or the length needed.
#[repr(C)]
#[derive(Clone, Copy)]
pub struct RowCounts {
    pub refusal: i64,
    pub rows: usize,
    pub length: usize,
}

// What moving answers: the refusal or 0, and the length of what was put, or the length needed.
#[repr(C)]
#[derive(Clone, Copy)]
pub struct TwoNumbers {
    pub refusal: i64,
    pub length: usize,
}

// A stored number: the refusal or 0, the number, and how many bytes it takes.
#[repr(C)]
#[derive(Clone, Copy)]
pub struct ThreeNumbers {
    pub refusal: i64,
    pub value: u64,
    pub size: usize,
}

// What a refusal is added to, so that it is the number of no form.
const REFUSED: i64 = 100;

pub fn silvanelga_trial_list(list: &[i64], joints: bool, rows: &mut [i64]) -> RowCounts
    ensures value { result ≡ counts_of (listed (list_refusal list.now) (sharing joints list.now) (length rows.old)) }
    ensures rows_after { rows.new ≡ filled (list_refusal list.now) (rows_of joints list.now) rows.old }
{
    listing::list_all(list, joints, rows).into()
}

pub fn silvanelga_trial_near(list: &[i64], joints: bool, rows: &mut [i64]) -> RowCounts
    ensures value { result ≡ counts_of (listed (list_refusal list.now) (sharing joints list.now) (length rows.old)) }
    ensures rows_after { rows.new ≡ filled (list_refusal list.now) (rows_of joints list.now) rows.old }
{
    listing::list_near(list, joints, rows).into()
}

pub fn silvanelga_trial_one(list: &[i64], i: usize, joints: bool, rows: &mut [i64]) -> RowCounts
    ensures value { result ≡ counts_of (listed (one_refusal list.now i) (sharing_with joints list.now i) (length rows.old)) }
    ensures rows_after { rows.new ≡ filled (one_refusal list.now i) (rows_with joints list.now i) rows.old }
{
    listing::list_one(list, i, joints, rows).into()
}

pub fn silvanelga_trial_read(bytes: &[u8], list: &mut [i64]) -> i64
    ensures value { result ≡ (read_answer (read_drawing bytes.now) list.old).refusal }
    ensures list_after { list.new ≡ read_into (read_drawing bytes.now) list.old }
{
    match store::read_drawing(bytes, list) {
        Ok(_read) => 0,
        Err(unread) => unread.into(),
    }
}

pub fn silvanelga_trial_write(form: i64, list: &[i64], bytes: &mut [u8]) -> i64
    ensures value { result ≡ (write_answer (form_from form) list.now bytes.old).refusal }
    ensures bytes_after { bytes.new ≡ write_into (form_from form) list.now bytes.old }
{
    match store::write_drawing(form_from(form), list, bytes) {
        Ok(_length) => 0,
        Err(unwritten) => unwritten.into(),
    }
}

pub fn silvanelga_trial_form(bytes: &[u8]) -> i64
    ensures { result ≡ form_told bytes.now }
{
    match store::form_of(bytes) {
        Ok(form) => form_number(form),
        Err(refusal) => REFUSED + i64::from(refusal),
    }
}

pub fn silvanelga_trial_move(bytes: &[u8], form: i64, out: &mut [u8]) -> TwoNumbers
    ensures value { result ≡ two_of (move_answer (form_from form) bytes.now out.old) }
    ensures out_after { out.new ≡ move_into (form_from form) bytes.now out.old }
{
    store::move_drawing(bytes, form_from(form), out).into()
}

pub fn silvanelga_trial_number(bytes: &[u8]) -> ThreeNumbers
    ensures { result ≡ three_of (number_of bytes.now (read_number bytes.now)) }
{
    number::read_number(bytes).into()
}

pub fn silvanelga_trial_put(numbers: &[u64], bytes: &mut [u8], at: usize) -> usize
    ensures { Wrote bytes.old bytes.new at result (write_numbers numbers.now) }
{
    number::put_stored(numbers, bytes, at)
}

pub fn silvanelga_trial_place(mx: i64, nx: i64, my: i64, ny: i64, w: i64) -> SixNumbers
    ensures { result ≡ place_answer (record { mx = mx; nx = nx; my = my; ny = ny; w = w }) }
{
    screen::places::place_of(Point { mx, nx, my, ny, w }).into()
}

pub fn silvanelga_trial_box(list: &[i64]) -> SixNumbers
    ensures { result ≡ box_answer list.now }
{
    screen::boxes::box_of(list).into()
}
