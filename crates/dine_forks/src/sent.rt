//! What the two ends of a fork send each other.

ghost use Rattle.std.specs.Prelude.{◌≡◌, ◌≤◌};
ghost use Rattle.dine_forks.specs.Sending.{after, messages_in};

use crate::record::Fork;

/// What two ends send each other in one go: the fork, its request token, or both.
#[derive(Clone, Copy, Debug, PartialEq, Eq, Hash)]
pub enum Sent {
    /// Nothing is sent.
    Nothing,
    /// The token: one end asks for the fork, or gives its request up.
    Token,
    /// The fork, cleaned. Who gives it keeps the token.
    Fork,
    /// The fork, cleaned, and the token: one end asks and the other gives.
    Both,
    /// The token goes to the holder, and comes back with the fork, cleaned: who gives it asks for it in turn.
    Crossed,
    /// The fork, dirty: it is given back unused, and who gives it keeps the token.
    Back,
    /// The fork, dirty, and the token: who is given the fork back hands the token over.
    BackAsked,
}

impl Sent {
    /// How many messages this is: each is one token or one fork.
    #[inline(always)]
    pub fn messages(self) -> u32
        ensures value { result ≡ messages_in self }
        ensures bound { result ≤ 3 }
    {
        match self {
            Sent::Nothing => 0,
            Sent::Token | Sent::Fork | Sent::Back => 1,
            Sent::Both | Sent::BackAsked => 2,
            Sent::Crossed => 3,
        }
    }

    /// The fork once this is sent.
    #[inline(always)]
    pub fn after(self, fork: Fork) -> Fork
        ensures { result ≡ after self fork }
    {
        match self {
            Sent::Nothing => fork,
            Sent::Token => Fork {
                token_first: !fork.token_first,
                ..fork
            },
            Sent::Fork | Sent::Crossed => Fork {
                at_first: !fork.at_first,
                dirty: false,
                ..fork
            },
            Sent::Both => Fork {
                at_first: !fork.at_first,
                dirty: false,
                token_first: !fork.token_first,
            },
            Sent::Back => Fork {
                at_first: !fork.at_first,
                dirty: true,
                ..fork
            },
            Sent::BackAsked => Fork {
                at_first: !fork.at_first,
                dirty: true,
                token_first: !fork.token_first,
            },
        }
    }
}
