// A range of positions of a file.
ghost use Rattle.std.specs.Prelude.{◌≡◌};

/// The positions from `from` on, and before `end` where it has one.
#[derive(Clone, Copy)]
pub struct Span {
    pub from: u64,
    pub end: Option<u64>,
}

impl Span {
    ghost use Rattle.ori_volmem.specs.Record.{in_span};

    /// Whether it has a position.
    pub fn contains(&self, at: u64) -> bool
        ensures { result ≡ in_span self.now at }
    {
        if at < self.from {
            return false;
        }
        match self.end {
            Some(end) => at < end,
            None => true,
        }
    }
}
