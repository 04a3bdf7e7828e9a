// A frame of two samples, and the value between four frames.
#![tactic(auto)]

ghost use Rattle.std.specs.Prelude.{◌≡◌};
ghost use Rattle.frame.specs.Frames.{cubic, interpolated};

#[derive(Clone, Copy, Debug)]
pub struct Frame {
    pub left: f32,
    pub right: f32,
}

impl Frame {
    pub const ZERO: Frame = Frame {
        left: 0.0,
        right: 0.0,
    };
}

// One channel of `interpolate_frame`.
fn interpolate(previous: f32, current: f32, next_1: f32, next_2: f32, fraction: f32) -> f32
    ensures { result ≡ cubic previous current next_1 next_2 fraction }
{
    let c0 = current;
    let c1 = (next_1 - previous) * 0.5;
    let c2 = previous - current * 2.5 + next_1 * 2.0 - next_2 * 0.5;
    // A difference where the definition has a sum: the same value, and clang vectorises it over the channels.
    let c3 = (next_2 - previous) * 0.5 - (next_1 - current) * 1.5;
    ((c3 * fraction + c2) * fraction + c1) * fraction + c0
}

// The value at `fraction` of the way from `current` to `next_1`.
pub fn interpolate_frame(
    previous: Frame,
    current: Frame,
    next_1: Frame,
    next_2: Frame,
    fraction: f32,
) -> Frame
    ensures { result ≡ interpolated previous current next_1 next_2 fraction }
{
    Frame {
        left: interpolate(
            previous.left,
            current.left,
            next_1.left,
            next_2.left,
            fraction,
        ),
        right: interpolate(
            previous.right,
            current.right,
            next_1.right,
            next_2.right,
            fraction,
        ),
    }
}
