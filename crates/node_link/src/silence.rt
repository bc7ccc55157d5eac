//! How long a node bears that nothing comes.

ghost use Rattle.std.specs.Prelude.{◌≡◌};
ghost use Rattle.node_link.specs.Silence.{first_pause, is_silence_over, new_silence, next_pause, silence_end, behind_pause, behind_arrival, behind_timeout};

use crate::link::Role;

/// The first pause of a client, in milliseconds, and the one behind records that came.
pub(crate) const SHORTEST_PAUSE: u64 = 10;

/// The longest pause, and a metadata server's, in milliseconds.
pub(crate) const LONGEST_PAUSE: u64 = 1_000;

/// How long it is borne that nothing comes, until time passes: a pause is twice as long behind each one, and
/// short again where two records came since.
#[derive(Clone, Copy, Debug, PartialEq, Eq)]
pub struct Silence {
    /// The first pause, in milliseconds; `None` where time is not told to pass.
    pub first: Option<u64>,
    /// This pause.
    pub pause: Option<u64>,
    /// When the last arrival was given, in milliseconds.
    pub quiet: u64,
    /// How many records came since time passed, at most 2.
    pub came: u8,
}

/// The first pause of a node in this role.
pub(crate) fn first_pause(role: Role) -> Option<u64>
    ensures { result ≡ first_pause role }
{
    match role {
        Role::Mds => Some(LONGEST_PAUSE),
        Role::Server => None,
        Role::Client => Some(SHORTEST_PAUSE),
    }
}

/// The pause behind this one.
fn next_pause(pause: Option<u64>) -> Option<u64>
    ensures { result ≡ next_pause pause }
{
    match pause {
        Some(pause) => Some(pause.saturating_mul(2).min(LONGEST_PAUSE)),
        None => None,
    }
}

impl Silence {
    /// Nothing came yet, and no time has passed.
    pub(crate) fn new(first: Option<u64>) -> Silence
        ensures { result ≡ new_silence first }
    {
        Silence {
            first,
            pause: first,
            quiet: 0,
            came: 0,
        }
    }

    /// A record came.
    pub(crate) fn behind_arrival(self, now: u64) -> Silence
        ensures { result ≡ behind_arrival now self }
    {
        let pause = if self.came >= 1 {
            self.first
        } else {
            self.pause
        };
        Silence {
            pause,
            quiet: now,
            came: self.came.saturating_add(1).min(2),
            ..self
        }
    }

    /// A call was given up.
    pub(crate) fn behind_timeout(self, now: u64) -> Silence
        ensures { result ≡ behind_timeout now self }
    {
        Silence { quiet: now, ..self }
    }

    /// Time passed.
    pub(crate) fn behind_pause(self, now: u64) -> Silence
        ensures { result ≡ behind_pause now self }
    {
        Silence {
            pause: next_pause(self.pause),
            quiet: now,
            came: 0,
            ..self
        }
    }

    /// Until when it is borne that nothing comes; the last moment of all where it is for ever.
    pub(crate) fn end(self) -> u64
        ensures { result ≡ silence_end self }
    {
        match self.pause {
            Some(pause) => self.quiet.saturating_add(pause),
            None => u64::MAX,
        }
    }

    /// It was borne long enough by now.
    pub(crate) fn is_over(self, now: u64) -> bool
        ensures { result ≡ is_silence_over now self }
    {
        match self.pause {
            Some(pause) => pause <= now.saturating_sub(self.quiet),
            None => false,
        }
    }
}
