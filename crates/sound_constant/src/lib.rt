// Whether the lanes of a block repeat one frame's numbers. No pass returns early, so that its loop can be vectorised.
#![tactic(auto)]

ghost use Rattle.std.specs.Prelude.{◌≡◌, Bool, true, false, ◌-◌, ◌<◌, length, get_or};
ghost use Rattle.std.specs.Float.{nan};
ghost use Rattle.std.specs.Float.Ieee.{eq};
ghost use Rattle.numbers.specs.Words.{positive_zero};
ghost use Rattle.sound_lanes.specs.Lanes.{lanes_of};
ghost use Rattle.sound_constant.specs.Constant.{first, Repeats, Constant};

use sound_held::Held;
use sound_lanes::Lanes;

// An amplitude or a rate: equal numbers that are not 0 are the same, since only 0 and -0 are equal and differ.
trait Amount: Copy {
    ghost zero: { Self → Bool };

    fn is_zero(self) -> bool
        ensures { result ≡ zero self };

    fn is_equal(self, other: Self) -> bool
        requires { zero other ≡ false }
        ensures { result ≡ true → self ≡ other };
}

impl Amount for f32 {
    ghost zero = { λ x. eq x positive_zero };

    fn is_zero(self) -> bool {
        self == 0.0
    }

    fn is_equal(self, other: f32) -> bool {
        self == other
    }
}

impl Amount for f64 {
    ghost zero = { λ x. eq x positive_zero };

    fn is_zero(self) -> bool {
        self == 0.0
    }

    fn is_equal(self, other: f64) -> bool {
        self == other
    }
}

// Whether a lane's first and last number are equal. Most lanes that change differ there.
fn has_equal_ends(lane: &[f32]) -> bool
    requires { 0 < length lane.now }
    ensures { result ≡ eq (get_or lane.now 0 nan)
        (get_or lane.now (length lane.now - 1) nan) }
{
    let end = lane.len() - 1;
    lane[0] == lane[end]
}

// Whether all numbers of a lane equal its first, which is not 0.
fn is_constant<A: Amount>(lane: &[A]) -> bool
    requires { 0 < length lane.now }
    ensures { result ≡ true → Repeats lane.now }
{
    let first = lane[0];
    if first.is_zero() {
        return false;
    }
    let mut same = true;
    for x in lane {
        same = x.is_equal(first) & same;
    }
    same
}

// Whether all lanes of a block repeat their first number, and none of these is 0.
pub fn are_constant(lanes: Lanes<'_>) -> bool
    ensures { result ≡ true → Constant (lanes_of lanes.entry) }
{
    if lanes.rate.is_empty() {
        return false;
    }
    if !lanes.are_sized() {
        return false;
    }
    if !(has_equal_ends(lanes.fade)
        & has_equal_ends(lanes.volume)
        & has_equal_ends(lanes.left)
        & has_equal_ends(lanes.right))
    {
        return false;
    }
    is_constant(lanes.rate)
        & is_constant(lanes.fade)
        & is_constant(lanes.volume)
        & is_constant(lanes.left)
        & is_constant(lanes.right)
}

// The first frame's numbers of constant lanes.
pub fn first_of(lanes: Lanes<'_>) -> Held
    requires { Constant (lanes_of lanes) }
    ensures { result ≡ first (lanes_of lanes.entry) }
{
    let gains = lanes.gains(0);
    Held {
        gains,
        rate: lanes.rate[0],
    }
}
