// The crossing of two objects: none, point or many; joints left out or not.
ghost use Rattle.std.specs.Prelude.{◌≡◌};
ghost use Rattle.sheet.specs.Figure.{figure_of};
ghost use Rattle.sheet.specs.Crossing.{crossing_of, crossing_refusal};
ghost use Rattle.sheet.specs.Joint.{kept};
ghost use Rattle.sheet.specs.Answers.{answer, meeting_numbers, crossing_numbers, crossing_says};
ghost use Rattle.kernel.specs.Bounds.{Numbers};
ghost use Rattle.kernel.specs.Joints.{figures_kept};

use crate::sides::with_side_kept;
use crate::stretches::cross_stretches;
use sheet::refusal::Refusal;
use sheet::{Crossing, Object, check_object};

// The answers with a side have names of their own: the common answer, from cross_stretches, then stays in registers and out of memory.
fn meet(
    ka: i64,
    px: i64,
    py: i64,
    qx: i64,
    qy: i64,
    kb: i64,
    rx: i64,
    ry: i64,
    sx: i64,
    sy: i64,
    joints: bool,
) -> Crossing
    requires numbers { Numbers ka px py qx qy }
    requires numbers_2 { Numbers kb rx ry sx sy }
    ensures { crossing_numbers result ≡ meeting_numbers (figures_kept joints (figure_of ka px py qx qy) (figure_of kb rx ry sx sy)) }
{
    if ka == Object::SIDE {
        let found = with_side_kept(px, kb, rx, ry, sx, sy, joints);
        return found;
    }
    if kb == Object::SIDE {
        let found = with_side_kept(rx, ka, px, py, qx, qy, joints);
        return found;
    }
    cross_stretches(ka, px, py, qx, qy, kb, rx, ry, sx, sy, joints)
}

// What two objects share, but nothing of a joint unless joints are asked for. The first one's refusal comes first, then the second's.
pub fn cross_kept(a: Object, b: Object, joints: bool) -> Result<Crossing, Refusal>
    ensures { crossing_says result ≡ answer (crossing_refusal a b) (meeting_numbers (kept joints a b)) }
{
    check_object(a)?;
    check_object(b)?;
    let shared = meet(
        a.kind, a.px, a.py, a.qx, a.qy, b.kind, b.px, b.py, b.qx, b.qy, joints,
    );
    Ok(shared)
}

// What two objects share, joints too.
pub fn cross(a: Object, b: Object) -> Result<Crossing, Refusal>
    ensures { crossing_says result ≡ answer (crossing_refusal a b) (meeting_numbers (crossing_of a b)) }
{
    cross_kept(a, b, true)
}
