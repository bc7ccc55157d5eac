//! When something happened to an object of a data server.

ghost use Rattle.std.specs.Prelude.{◌≡◌, ◌<◌, ◌-◌, ◌^◌};
ghost use Rattle.cluster_model.specs.Ticks.{next_tick};

/// A moment of a data server: the boot number, and the count of changes since that boot. The boot is
/// compared first.
#[derive(Clone, Copy, Debug, Default, PartialEq, Eq)]
pub struct Tick {
    pub boot: u32,
    pub count: u32,
}

/// The times of an object (RFC 1813, section 2.5): of the last access, of the last change of the
/// bytes, and of the last change of the bytes or the attributes.
#[derive(Clone, Copy, Debug, PartialEq, Eq)]
pub struct Times {
    pub atime: Tick,
    pub mtime: Tick,
    pub ctime: Tick,
}

impl Tick {
    /// The tick that the next change takes.
    pub fn next(self) -> Tick
        requires { self.count < 2 ^ 32 - 1 }
        ensures { result ≡ next_tick self }
    {
        Tick {
            boot: self.boot,
            count: self.count + 1,
        }
    }
}
