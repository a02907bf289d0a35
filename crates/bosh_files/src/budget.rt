//! How many bytes of files a deployment may still have.
ghost use Rattle.std.specs.Prelude.{◌≡◌, ℕ, ◌+◌};
ghost use Rattle.bosh_files.specs.Budget.{Counts, is_kept};

/// The bytes of all files of a deployment are at most 1,048,576: how many are left of these.
#[derive(Clone, Copy)]
pub enum Budget {
    Left(u32),
    /// More were taken than there are.
    Spent,
}

impl Budget {
    /// Nothing is taken.
    pub fn whole() -> Budget
        ensures { Counts result 0 }
    {
        Budget::Left(1_048_576)
    }

    /// Whether all that was taken is within the limit, and so is kept.
    pub fn is_kept(self) -> bool
        ensures { result ≡ is_kept self }
    {
        match self {
            Budget::Left(_) => true,
            Budget::Spent => false,
        }
    }

    /// Takes some bytes.
    pub fn take(&mut self, bytes: usize)
        ensures { (taken : ℕ) → Counts self.old taken → Counts self.new (taken + bytes) }
    {
        if let Budget::Left(left) = *self {
            *self = if bytes <= left as usize {
                Budget::Left(left - bytes as u32)
            } else {
                Budget::Spent
            };
        }
    }
}
