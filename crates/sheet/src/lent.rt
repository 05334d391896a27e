// Lent cells: a piece is put at a place of them, as far as there are cells, and the place behind it is given. Whoever puts a result into no
// cells learns its length, and then puts it into the lent ones where it fits: one way through for both.
ghost use Rattle.std.specs.Prelude.{[], ◌∷◌, ◌≡◌, ◌+◌, ◌≤◌, length, take};
ghost use Rattle.std.proofs.lemmas.List.Edits.{sets};
ghost use Rattle.sheet.specs.Lent.{clipped, Wrote};

// The place so many cells behind a place; the largest, where there is none.
pub fn behind(at: usize, count: usize) -> usize
    ensures { result ≡ clipped (at + count) }
{
    at.saturating_add(count)
}

// A byte at a place of the lent bytes; a place that they do not have is passed by.
pub fn put_byte(b: u8, out: &mut [u8], at: usize) -> usize
    ensures { Wrote out.old out.new at result (b ∷ []) }
{
    if at < out.len() {
        out[at] = b;
        return at + 1;
    }
    behind(at, 1)
}

// As many of some numbers as there are cells. It stands apart, since few pieces meet the end of the cells: of the others, of which the compiler
// knows how many numbers they are, the copy then stays in registers. It goes over all numbers and asks of each whether it has a cell: of a copy
// of so many the compiler makes a call of C's `memcpy`, which a library for C would then need from outside.
#[cold]
fn fill(cells: &mut [i64], numbers: &[i64])
    requires { length cells.old ≤ length numbers.now }
    ensures { cells.new ≡ take (length cells.old) numbers.now }
{
    for (i, &n) in numbers.iter().enumerate() {
        if i < cells.len() {
            cells[i] = n;
        }
    }
}

// Some numbers at a place of a lent list; places that it does not have are passed by.
pub fn put_numbers(numbers: &[i64], out: &mut [i64], at: usize) -> usize
    ensures { Wrote out.old out.new at result numbers.now }
{
    let count = numbers.len();
    if out.len() < at {
        return behind(at, count);
    }
    let room = out.len() - at;
    if room < count {
        fill(&mut out[at..], numbers);
        return behind(at, count);
    }
    out[at..at + count].copy_from_slice(numbers);
    at + count
}
