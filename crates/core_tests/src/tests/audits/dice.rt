ghost use Rattle.std.specs.Prelude.{◌<◌};

// Numbers that look random, the same in each run.
#[derive(Drop)]
pub(crate) struct Dice(pub(crate) u64);

impl Dice {
    pub(crate) fn roll(&mut self, sides: usize) -> usize
        requires { 0 < sides }
        ensures { result < sides }
    {
        self.0 = self
            .0
            .wrapping_mul(6364136223846793005)
            .wrapping_add(1442695040888963407);
        (self.0 >> 33) as usize % sides
    }

    pub(crate) fn number(&mut self) -> u8 {
        [0, 1, 2, 3, 4, 5, 6, 7, 8, 10, 30, 40, 60, 99, 100, 101, 255][self.roll(17)]
    }

    pub(crate) fn cell(&mut self) -> i64 {
        [
            -1,
            0,
            1,
            2,
            3,
            4,
            5,
            6,
            7,
            8,
            10,
            1000000004,
            1000000005,
            1000000010,
            65536,
            1 << 62,
            i64::MAX,
        ][self.roll(17)]
    }
}
