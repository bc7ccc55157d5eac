//! What is known of the silence of data servers.

ghost use Rattle.std.specs.Prelude.{◌≡◌, ◌==◌, if◌then◌else◌, OnErr, OnOk};
ghost use Rattle.waiting_calls.specs.ServerNews.{changed_news, has_other_come, is_heard_since, is_down_at, is_found_down, is_called_before, is_recent, is_server_down, is_silent, is_silent_since, new_news, since_at, with_called, with_news};

use crate::link_call::CALL_LIMIT;
use ff_xdr::NoMemory;

/// A server from which nothing came for so many milliseconds, while calls to it were out, is down where
/// something came from another one.
pub(crate) const DOWN_LIMIT: u64 = 6_000;

/// What is known of a data server that was called. All moments are in milliseconds.
#[derive(Clone, Copy, Debug, PartialEq, Eq)]
pub struct ServerNews {
    /// Its number.
    pub number: u32,
    /// When something came from it last.
    pub heard: Option<u64>,
    /// Since when calls to it are out all along and nothing came from it.
    pub since: Option<u64>,
    /// When a call went to it last.
    pub called: u64,
    /// When a call to it was given up last.
    pub given_up: Option<u64>,
    /// It was found down, and nothing came from it since.
    pub is_down: bool,
}

/// What may happen to a data server.
#[derive(Clone, Copy, Debug, PartialEq, Eq)]
pub enum NewsChange {
    /// A call goes to it.
    IsCalled,
    /// A record came from it.
    IsHeardFrom,
    /// A call to it is given up, and it is down from now on, or is not.
    IsGivenUp(bool),
}

/// Whether a moment is less than six seconds ago.
fn is_recent(now: u64, moment: Option<u64>) -> bool
    ensures { result ≡ is_recent now moment }
{
    match moment {
        Some(moment) => now.saturating_sub(moment) < DOWN_LIMIT,
        None => false,
    }
}

/// Since when calls are out all along, where one goes now and the last one went at a moment.
fn since_at(now: u64, called: u64, since: Option<u64>) -> Option<u64>
    ensures { result ≡ since_at now called since }
{
    match since {
        Some(since) => {
            if now.saturating_sub(called) > 2 * CALL_LIMIT {
                Some(now)
            } else {
                Some(since)
            }
        }
        None => Some(now),
    }
}

/// Whether something came at this moment or later.
fn is_heard_since(since: u64, heard: Option<u64>) -> bool
    ensures { result ≡ is_heard_since since heard }
{
    match heard {
        Some(heard) => since <= heard,
        None => false,
    }
}

impl ServerNews {
    /// A server to which the first call goes now.
    fn new(now: u64, number: u32) -> ServerNews
        ensures { result ≡ new_news now number }
    {
        ServerNews {
            number,
            heard: None,
            since: Some(now),
            called: now,
            given_up: None,
            is_down: false,
        }
    }

    /// It is down at this moment.
    fn is_down_at(&self, now: u64) -> bool
        ensures { result ≡ is_down_at now self.now }
    {
        self.is_down && is_recent(now, self.given_up)
    }

    /// This happened to it now.
    fn changed(self, now: u64, change: NewsChange) -> ServerNews
        ensures { result ≡ changed_news now change self }
    {
        match change {
            NewsChange::IsCalled => ServerNews {
                since: since_at(now, self.called, self.since),
                called: now,
                ..self
            },
            NewsChange::IsHeardFrom => ServerNews {
                heard: Some(now),
                since: None,
                is_down: false,
                ..self
            },
            NewsChange::IsGivenUp(is_down) => ServerNews {
                given_up: Some(now),
                is_down,
                ..self
            },
        }
    }

    /// This happened to the server of this number now, which may be it.
    fn changed_if(self, number: u32, now: u64, change: NewsChange) -> ServerNews
        ensures { result ≡ (if self.number == number then changed_news now change self else self) }
    {
        if self.number == number {
            self.changed(now, change)
        } else {
            self
        }
    }
}

/// A record came from another server at this moment or later.
fn has_other_come(number: u32, since: u64, servers: &[ServerNews]) -> bool
    ensures { result ≡ has_other_come number since servers.now }
{
    servers.iter().any(|news| news.number != number && is_heard_since(since, news.heard))
}

/// Calls to this server are out for six seconds, in which something came from another one, and nothing from it.
fn is_silent(now: u64, servers: &[ServerNews], news: &ServerNews) -> bool
    ensures { result ≡ is_silent now servers.now news.now }
{
    match news.since {
        Some(since) => {
            now.saturating_sub(since) >= DOWN_LIMIT && has_other_come(news.number, since, servers)
        }
        None => false,
    }
}

/// The server of this number is down at this moment.
pub(crate) fn is_server_down(now: u64, number: u32, servers: &[ServerNews]) -> bool
    ensures { result ≡ is_server_down now number servers.now }
{
    servers
        .iter()
        .any(|news| news.number == number && news.is_down_at(now))
}

/// It is down from now on, where a call to it is given up.
pub(crate) fn is_found_down(now: u64, number: u32, servers: &[ServerNews]) -> bool
    ensures { result ≡ is_found_down now number servers.now }
{
    servers.iter().any(|news| {
        news.number == number && (news.is_down_at(now) || is_silent(now, servers, news))
    })
}

/// A call went to the server of this number before.
fn is_called_before(number: u32, servers: &[ServerNews]) -> bool
    ensures { result ≡ is_called_before number servers.now }
{
    servers.iter().any(|news| news.number == number)
}

/// This happened to the server of this number now.
pub(crate) fn change_news(servers: &mut [ServerNews], number: u32, now: u64, change: NewsChange)
    ensures { servers.new ≡ with_news now number change servers.old }
{
    for place in 0..servers.len() {
        servers[place] = servers[place].changed_if(number, now, change);
    }
}

/// A call goes to the server of this number now. At an error nothing has changed.
pub(crate) fn call_server(
    servers: &mut Vec<ServerNews>,
    number: u32,
    now: u64,
) -> Result<(), NoMemory>
    ensures called { OnOk result (servers.new.items ≡ with_called now number servers.old.items) }
    ensures unchanged { OnErr result (servers.new.items ≡ servers.old.items) }
{
    if is_called_before(number, servers) {
        change_news(servers, number, now, NewsChange::IsCalled);
        return Ok(());
    }
    servers.push(ServerNews::new(now, number))?;
    Ok(())
}
