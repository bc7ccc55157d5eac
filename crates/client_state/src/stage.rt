//! How far the giving back of a layout is.

ghost use Rattle.std.specs.Prelude.{◌≡◌};
ghost use Rattle.client_state.specs.ClientQueue.{is_writing};

/// Whether a layout is to be given back, and how far that is.
#[derive(Clone, Copy, Debug, PartialEq, Eq)]
pub enum LayoutStage {
    /// Writes are taken.
    Writing,
    /// It is to be given back: what is taken is committed, and then LAYOUTRETURN goes out.
    Ending,
    /// LAYOUTRETURN was refused for now, and goes out again at the next tick.
    Deferred,
    /// LAYOUTRETURN is outstanding.
    Returning,
}

impl LayoutStage {
    /// Writes are taken.
    pub fn is_writing(self) -> bool
        ensures { result ≡ is_writing self }
    {
        match self {
            LayoutStage::Writing => true,
            LayoutStage::Ending => false,
            LayoutStage::Deferred => false,
            LayoutStage::Returning => false,
        }
    }
}
