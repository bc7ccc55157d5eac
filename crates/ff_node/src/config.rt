//! The configuration of a node.

ghost use Rattle.std.specs.Prelude.{◌≡◌, ◌≤◌, ◌<◌, ℕ, List, length, map, codes, count_by, ◌==◌, MatchOption, Result, Ok, Err};
ghost use Rattle.std.specs.List.{All};
ghost use Rattle.serde_json.specs.Data.{Data, string, array, number, unsigned, Members, member};
ghost use Rattle.serde_json.specs.View.{view, items_view, members_view};
ghost use Rattle.device_addr.specs.Universal.{AddressValue, IsAddress, address_text, address_value};
ghost use Rattle.node_config.specs.Configs.{ConfigValue, IsInRange, config_value};
ghost use Rattle.ff_node.specs.Config.{FieldValues, Configures, ListsServers, ReadsConfig, ReadsItems, ReadsServers, ReadsValue, config_fields, before, five_members, field_values, colons};

use device_addr::{NetAddr, parse_universal};
use node_config::{Config, MAX_MIRRORS, MAX_NUMBER, MAX_SERVERS};
use serde_json::{Map, Value};
use std::alloc::Global;
use thiserror::Error;

/// The longest line of a configuration, in bytes.
pub const MAX_LINE: usize = 65_536;

/// Why there is no configuration.
#[derive(Clone, Copy, Debug, PartialEq, Eq, Error)]
pub enum ConfigFault {
    /// The line configures no node.
    #[error("the line configures no node")]
    Bad,
    /// Memory was wanted.
    #[error("memory was wanted")]
    NoMemory,
}

/// The values of a configuration's members.
#[derive(Drop)]
struct Fields {
    mds: Value,
    mirrors: Value,
    own: Value,
    servers: Value,
    turns: Value,
}

/// Takes the first member, if it has this name.
fn take_member(members: &mut Map<String, Value>, name: &str) -> Option<Value>
    ensures { MatchOption result ((d : Data) (rest : Members) → members_view members.old.entries ≡ member name.now d rest → ⊥) (λ v. members_view members.old.entries ≡ member name.now (view v) (members_view members.new.entries)) }
{
    let (key, value) = members.pop_first()?;
    (key.as_str() == name).then_some(value)
}

/// Takes the first five members, if they are those of a configuration.
fn take_fields(members: &mut Map<String, Value>) -> Option<Fields>
    ensures { MatchOption result ((f : FieldValues) (rest : Members) → members_view members.old.entries ≡ before f rest → ⊥) (λ fields. members_view members.old.entries ≡ before (field_values fields) (members_view members.new.entries)) }
{
    Some(Fields {
        mds: take_member(members, "mds")?,
        mirrors: take_member(members, "mirrors")?,
        own: take_member(members, "own")?,
        servers: take_member(members, "servers")?,
        turns: take_member(members, "turns")?,
    })
}

/// The members of a configuration, if these are all.
fn fields_of(value: Value) -> Option<Fields>
    ensures { MatchOption result ((f : FieldValues) → view value ≡ five_members f → ⊥) (λ fields. view value ≡ five_members (field_values fields)) }
{
    let Value::Object(mut members) = value else {
        return None;
    };
    let fields = take_fields(&mut members)?;
    if !members.is_empty() {
        return None;
    }
    Some(fields)
}

/// The number that a member's value is, from 1 to `most`.
fn number_to(value: &Value, most: u32) -> Option<u32>
    ensures { MatchOption result ((n : ℕ) → 1 ≤ n → n ≤ most → view value.now ≡ number (unsigned n) → ⊥) (λ n. (1 ≤ n) × (n ≤ most) × (view value.now ≡ number (unsigned n))) }
{
    let number = u32::try_from(value.as_u64()?).ok()?;
    if number < 1 || number > most {
        return None;
    }
    Some(number)
}

/// The address that a member's value is.
fn address_at(value: &Value) -> Option<NetAddr>
    ensures { MatchOption result ((a : AddressValue) → IsAddress a → view value.now ≡ string (address_text a) → ⊥) (λ a. IsAddress (address_value a) × (view value.now ≡ string (address_text (address_value a)))) }
{
    parse_universal(value.as_str()?)
}

/// The addresses of a list's items, in order.
fn addresses_at(alloc: Global, items: &[Value]) -> Result<Vec<NetAddr>, ConfigFault>
    ensures { ReadsItems items.now result }
{
    let mut addresses = Vec::new(alloc);
    for item in items {
        let Some(address) = address_at(item) else {
            return Err(ConfigFault::Bad);
        };
        if addresses.push(address).is_err() {
            return Err(ConfigFault::NoMemory);
        }
    }
    Ok(addresses)
}

/// The addresses of 1 to 16 data servers, as a member's value lists them.
fn servers_at(alloc: Global, value: &Value) -> Result<Vec<NetAddr>, ConfigFault>
    ensures { ReadsServers (view value.now) result }
{
    let Some(items) = value.as_array() else {
        return Err(ConfigFault::Bad);
    };
    if items.is_empty() || items.len() > MAX_SERVERS {
        return Err(ConfigFault::Bad);
    }
    addresses_at(alloc, items)
}

/// The configuration of these members' values, with the addresses that the list of servers has.
fn config_of(fields: &Fields, servers: Vec<NetAddr>) -> Option<Config>
    requires { ListsServers (field_values fields.now).servers (map address_value servers.items) }
    ensures { MatchOption result ((c : ConfigValue) → IsInRange c → field_values fields.now ≡ config_fields c → ⊥) (λ c. IsInRange (config_value c) × (field_values fields.now ≡ config_fields (config_value c))) }
{
    let mds = address_at(&fields.mds)?;
    let mirrors = number_to(&fields.mirrors, MAX_MIRRORS)?;
    let own = number_to(&fields.own, MAX_NUMBER)?;
    let turns = number_to(&fields.turns, u32::MAX)?;
    if mirrors as usize > servers.len() {
        return None;
    }
    Some(Config {
        servers,
        mds,
        mirrors,
        own,
        turns,
    })
}

/// The JSON value of a line.
fn value_of(alloc: Global, line: &[u8]) -> Result<Value, ConfigFault>
    ensures { ReadsValue line.now result }
{
    match Value::from_slice(alloc, line) {
        Ok(value) => Ok(value),
        Err(error) if error.is_memory() => Err(ConfigFault::NoMemory),
        Err(_) => Err(ConfigFault::Bad),
    }
}

/// How many colons a line has.
fn colons(line: &[u8]) -> usize
    ensures { result ≡ colons line.now }
{
    line.iter().filter(|c| **c == b':').count()
}

/// The configuration that a line has: a JSON object with exactly the members `servers`, `mds`,
/// `mirrors`, `own` and `turns`, in any order. An address is a text, as of `parse_universal`.
///
/// `ConfigFault::Bad` is for a line that configures no node: of more than 65,536 bytes, no UTF-8,
/// no JSON or with text behind it, with a member that is unknown, missing or there twice, or with a
/// value out of its form or its range.
pub fn read_config(alloc: Global, line: &[u8]) -> Result<Config, ConfigFault>
    ensures { ReadsConfig line.now result }
{
    // serde_json keeps the last of two members of one name; a doubled one has a colon too many
    if line.len() > MAX_LINE || colons(line) != 5 {
        return Err(ConfigFault::Bad);
    }
    let Some(fields) = fields_of(value_of(alloc, line)?) else {
        return Err(ConfigFault::Bad);
    };
    let servers = servers_at(alloc, &fields.servers)?;
    config_of(&fields, servers).ok_or(ConfigFault::Bad)
}
