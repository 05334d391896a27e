// The calls of the crate trial as C links them: each is the call of that name there, with its contract.
#![tactic(auto)]

ghost use Rattle.std.specs.Prelude.{◌≡◌, length};
ghost use Rattle.listing.specs.Rows.{rows_with, rows_of, sharing_with, sharing};
ghost use Rattle.sheet.specs.Lent.{filled, Wrote};
ghost use Rattle.sheet.specs.Lists.{list_refusal};
ghost use Rattle.listing.specs.Listing.{one_refusal, listed};
ghost use Rattle.number.specs.Number.{write_numbers, read_number, number_of};
ghost use Rattle.store.specs.Stored.{read_drawing};
ghost use Rattle.store.specs.Answers.{read_answer, read_into, write_answer, write_into, move_answer, move_into};
ghost use Rattle.trial.specs.Numbers.{form_from, form_told, counts_of, two_of, three_of, place_answer, box_answer};

use trial::{RowCounts, SixNumbers, ThreeNumbers, TwoNumbers};

#[unsafe(no_mangle)]
pub extern "C" fn silvanelga_trial_list(list: &[i64], joints: bool, rows: &mut [i64]) -> RowCounts
    ensures value { result ≡ counts_of (listed (list_refusal list.now) (sharing joints list.now) (length rows.old)) }
    ensures rows_after { rows.new ≡ filled (list_refusal list.now) (rows_of joints list.now) rows.old }
{
    trial::silvanelga_trial_list(list, joints, rows)
}

#[unsafe(no_mangle)]
pub extern "C" fn silvanelga_trial_near(list: &[i64], joints: bool, rows: &mut [i64]) -> RowCounts
    ensures value { result ≡ counts_of (listed (list_refusal list.now) (sharing joints list.now) (length rows.old)) }
    ensures rows_after { rows.new ≡ filled (list_refusal list.now) (rows_of joints list.now) rows.old }
{
    trial::silvanelga_trial_near(list, joints, rows)
}

#[unsafe(no_mangle)]
pub extern "C" fn silvanelga_trial_one(
    list: &[i64],
    i: usize,
    joints: bool,
    rows: &mut [i64],
) -> RowCounts
    ensures value { result ≡ counts_of (listed (one_refusal list.now i) (sharing_with joints list.now i) (length rows.old)) }
    ensures rows_after { rows.new ≡ filled (one_refusal list.now i) (rows_with joints list.now i) rows.old }
{
    trial::silvanelga_trial_one(list, i, joints, rows)
}

#[unsafe(no_mangle)]
pub extern "C" fn silvanelga_trial_read(bytes: &[u8], list: &mut [i64]) -> i64
    ensures value { result ≡ (read_answer (read_drawing bytes.now) list.old).refusal }
    ensures list_after { list.new ≡ read_into (read_drawing bytes.now) list.old }
{
    trial::silvanelga_trial_read(bytes, list)
}

#[unsafe(no_mangle)]
pub extern "C" fn silvanelga_trial_write(form: i64, list: &[i64], bytes: &mut [u8]) -> i64
    ensures value { result ≡ (write_answer (form_from form) list.now bytes.old).refusal }
    ensures bytes_after { bytes.new ≡ write_into (form_from form) list.now bytes.old }
{
    trial::silvanelga_trial_write(form, list, bytes)
}

#[unsafe(no_mangle)]
pub extern "C" fn silvanelga_trial_form(bytes: &[u8]) -> i64
    ensures { result ≡ form_told bytes.now }
{
    trial::silvanelga_trial_form(bytes)
}

#[unsafe(no_mangle)]
pub extern "C" fn silvanelga_trial_move(bytes: &[u8], form: i64, out: &mut [u8]) -> TwoNumbers
    ensures value { result ≡ two_of (move_answer (form_from form) bytes.now out.old) }
    ensures out_after { out.new ≡ move_into (form_from form) bytes.now out.old }
{
    trial::silvanelga_trial_move(bytes, form, out)
}

#[unsafe(no_mangle)]
pub extern "C" fn silvanelga_trial_number(bytes: &[u8]) -> ThreeNumbers
    ensures { result ≡ three_of (number_of bytes.now (read_number bytes.now)) }
{
    trial::silvanelga_trial_number(bytes)
}

#[unsafe(no_mangle)]
pub extern "C" fn silvanelga_trial_put(numbers: &[u64], bytes: &mut [u8], at: usize) -> usize
    ensures { Wrote bytes.old bytes.new at result (write_numbers numbers.now) }
{
    trial::silvanelga_trial_put(numbers, bytes, at)
}

#[unsafe(no_mangle)]
pub extern "C" fn silvanelga_trial_place(mx: i64, nx: i64, my: i64, ny: i64, w: i64) -> SixNumbers
    ensures { result ≡ place_answer (record { mx = mx; nx = nx; my = my; ny = ny; w = w }) }
{
    trial::silvanelga_trial_place(mx, nx, my, ny, w)
}

#[unsafe(no_mangle)]
pub extern "C" fn silvanelga_trial_box(list: &[i64]) -> SixNumbers
    ensures { result ≡ box_answer list.now }
{
    trial::silvanelga_trial_box(list)
}
