// Where a generator has its terms.
ghost use Rattle.std.specs.Prelude.{◌≤◌};

// How many places behind the highest term the others stand.
#[derive(Clone, Copy, Debug, PartialEq, Eq)]
pub struct Terms {
    pub near: usize,
    pub middle: usize,
    pub far: usize,
    pub ghost within: { (near ≤ 16) × (middle ≤ 16) × (far ≤ 16) },
}
