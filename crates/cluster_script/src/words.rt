//! Numbers, machines, names, places and bytes as words.

ghost use Rattle.std.specs.Prelude.{◌≡◌, ◌≤◌, option_map};
ghost use Rattle.std.specs.List.{list_all};
ghost use Rattle.std.specs.Str.{bytes_eq};
ghost use Rattle.cluster_script.specs.ScriptWords.{within, number_within, place_at, count_at, bytes_at, byte_at, is_of_name, name_at, server_at, client_at, node_at};

use crate::sizes::ClusterSizes;
use cluster_model::{MAX_FILE, NodeId, PIECE_SIZE};
use ff_script::{Digits, decimal_at};

/// The word is this one.
pub fn is_word(word: &[u8], this: &[u8]) -> bool
    ensures { result ≡ bytes_eq word.now this.now }
{
    word == this
}

/// A number from `low` to `high`.
pub fn number_within(low: u32, high: u32, word: &[u8]) -> Option<u32>
    ensures { result ≡ number_within low high word.now }
{
    let number = decimal_at(word)?;
    (low <= number && number <= high).then_some(number)
}

/// A place in a file: at most `MAX_FILE`.
pub fn place_at(word: &[u8]) -> Option<u64>
    ensures { result ≡ place_at word.now }
{
    let place = u64::from(decimal_at(word)?);
    (place <= MAX_FILE).then_some(place)
}

/// How many bytes a request has: 1 to `PIECE_SIZE`.
pub fn count_at(word: &[u8]) -> Option<u32>
    ensures { result ≡ count_at word.now }
{
    number_within(1, PIECE_SIZE, word)
}

/// The bytes of a request: 1 to `PIECE_SIZE`.
pub fn bytes_at(word: &[u8]) -> Option<Digits<'_>>
    ensures { result ≡ bytes_at word.now }
{
    let bytes = Digits::read(word)?;
    (1 <= bytes.len() && bytes.len() <= PIECE_SIZE as usize).then_some(bytes)
}

/// One byte, as two digits.
pub fn byte_at(word: &[u8]) -> Option<u8>
    ensures { result ≡ byte_at word.now }
{
    let bytes = Digits::read(word)?;
    bytes.only()
}

/// It may stand in a name.
fn is_of_name(c: u8) -> bool
    ensures { result ≡ is_of_name c }
{
    matches!(c, b'a'..=b'z' | b'A'..=b'Z' | b'0'..=b'9' | b'.' | b'_' | b'-')
}

/// All may stand in a name. The loop has no way out, so that it goes by blocks.
fn are_of_name(word: &[u8]) -> bool
    ensures { result ≡ list_all is_of_name word.now }
{
    let mut all = true;
    for c in word {
        all = all & is_of_name(*c);
    }
    all
}

/// A file's name: 1 to 255 letters, digits, `.`, `_` and `-`.
pub fn name_at(word: &[u8]) -> Option<&str>
    ensures { option_map (λ n. n.now) result ≡ name_at word.now }
{
    if word.is_empty() || word.len() > 255 || !are_of_name(word) {
        return None;
    }
    str::from_utf8(word).ok()
}

/// A data server of the cluster: `d` and its number.
pub fn server_at(sizes: ClusterSizes, word: &[u8]) -> Option<u32>
    ensures { result ≡ server_at sizes word.now }
{
    number_within(1, sizes.servers, word.strip_prefix(b"d")?)
}

/// A client of the cluster: `c` and its number.
pub fn client_at(sizes: ClusterSizes, word: &[u8]) -> Option<u32>
    ensures { result ≡ client_at sizes word.now }
{
    number_within(1, sizes.clients, word.strip_prefix(b"c")?)
}

/// A machine of the cluster: `m`, a data server or a client.
pub fn node_at(sizes: ClusterSizes, word: &[u8]) -> Option<NodeId>
    ensures { result ≡ node_at sizes word.now }
{
    if word == b"m".as_slice() {
        return Some(NodeId::Mds);
    }
    if let Some(server) = server_at(sizes, word) {
        return Some(NodeId::Server(server));
    }
    Some(NodeId::Client(client_at(sizes, word)?))
}
