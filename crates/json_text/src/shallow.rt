// Levels whose spaces are one slice.
ghost use Rattle.std.specs.Prelude.{◌≡◌, ◌<◌, ◌+◌, MatchOption};

static SPACES: [u8; 512] = [b' '; 512];

/// A number of levels, at most 128, as deep as JSON is read.
#[derive(Clone, Copy)]
pub struct Shallow {
    /// How many lists and objects stand around.
    pub levels: usize,
    ghost few: { levels < 129 },
}

impl Shallow {
    ghost use Rattle.json_text.specs.Layout.{indent};

    /// No level.
    pub fn top() -> Shallow
        ensures { result.levels ≡ 0 }
    {
        Shallow { levels: 0 }
    }

    /// One level more, or `None` where its spaces are no slice of those here.
    pub fn inside(self) -> Option<Shallow>
        ensures { MatchOption result (self.levels ≡ 128) (λ inner. inner.levels ≡ self.levels + 1) }
    {
        if self.levels < 128 {
            Some(Shallow {
                levels: self.levels + 1,
            })
        } else {
            None
        }
    }

    /// The spaces before a line: four a level.
    pub fn indent(self) -> &'static [u8]
        ensures { result.now ≡ indent self.levels }
    {
        SPACES.split_at(4 * self.levels).0
    }
}
