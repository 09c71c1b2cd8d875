//! What the low digits of a run's numbers carry over.

ghost use Rattle.std.specs.Prelude.{◌≡◌, ◌≤◌, ◌<◌};
ghost use Rattle.run_wiring.specs.Entries.{AreSmall, carries_of};

/// The carries of the position and of both operands, and the mark: 1 where the digits of a place so far are at most those
/// of the greatest place, and else 0.
#[derive(Clone, Copy)]
pub(crate) struct Carries {
    pub(crate) position: u32,
    pub(crate) left: u32,
    pub(crate) right: u32,
    pub(crate) within: u32,
}

impl Carries {
    /// The carries of an entry.
    pub(crate) fn of(entry: usize) -> Carries
        requires { entry < 36 }
        ensures value { result ≡ carries_of entry }
        ensures small { AreSmall result }
    {
        let entry = entry as u32;
        Carries {
            position: entry / 9 % 2,
            left: entry / 3 % 3,
            right: entry % 3,
            within: entry / 18,
        }
    }

    /// The entry of these carries.
    pub(crate) fn entry(self) -> usize
        requires { AreSmall self }
        ensures few { result < 36 }
        ensures value { carries_of result ≡ self }
    {
        (((self.within * 2 + self.position) * 3 + self.left) * 3 + self.right) as usize
    }
}
