//! The numbers that the generator draws.
ghost use Rattle.std.specs.Prelude.{◌≡◌, ◌<◌};
ghost use Rattle.wg_gen.specs.Generator.{next, drawn, spot_at};

/// Where an iteration writes, and what it copies: from a buffer, at an offset, to another buffer, at the
/// same offset.
#[derive(Clone, Copy, PartialEq, Eq)]
pub struct Spot {
    pub source: u32,
    pub target: u32,
    pub offset: u64,
}

/// The numbers of a lane, each of which follows from the one before.
#[derive(Clone, Copy)]
pub struct Draws {
    pub state: u64,
}

impl Draws {
    /// The next number, from 0 to 32,767.
    pub fn draw(&mut self) -> u64
        requires { self.old.state < 2147483648 }
        ensures state { self.new.state ≡ next self.old.state }
        ensures range { self.new.state < 2147483648 }
        ensures given { result ≡ drawn self.old.state }
    {
        self.state = (self.state * 1_103_515_245 + 12_345) % 2_147_483_648;
        self.state / 65_536
    }

    /// The spot of an iteration, which takes three draws.
    pub fn spot(&mut self) -> Spot
        requires { self.old.state < 2147483648 }
        ensures state { self.new.state ≡ next (next (next self.old.state)) }
        ensures range { self.new.state < 2147483648 }
        ensures spot { result ≡ spot_at self.old.state }
    {
        let source = self.draw() % 8;
        let target = (source + 1 + self.draw() % 7) % 8;
        let offset = 4 * (self.draw() % 256);
        Spot {
            source: source as u32,
            target: target as u32,
            offset,
        }
    }
}
