// The viewer's calls as C links them: each is the call of that name of the crate viewer, with its contract.
#![tactic(auto)]

ghost use Rattle.std.specs.Prelude.{◌≡◌};
ghost use Rattle.viewer.specs.Calls.{check_answer, side_answer};

#[unsafe(no_mangle)]
pub extern "C" fn silvanelga_check(bytes: &[u8]) -> i64
    ensures { result ≡ check_answer bytes.now }
{
    viewer::silvanelga_check(bytes)
}

#[unsafe(no_mangle)]
pub extern "C" fn silvanelga_side(bytes: &[u8], i: i64, x: i64, y: i64) -> i64
    ensures { result ≡ side_answer bytes.now i x y }
{
    viewer::silvanelga_side(bytes, i, x, y)
}
