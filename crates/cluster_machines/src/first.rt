//! Machines as they are at first.

ghost use Rattle.std.specs.Prelude.{◌≡◌, ◌≤◌, IfOk, length, map};
ghost use Rattle.std.specs.List.{range_with_len};
ghost use Rattle.device_addr.specs.Universal.{address_value};
ghost use Rattle.node_config.specs.declared.config.TheConstants.{MAX_SERVERS, MAX_NUMBER};
ghost use Rattle.cluster_model.specs.Server.{new_server};
ghost use Rattle.client_state.specs.ClientStates.{fresh_client};
ghost use Rattle.world_rule.specs.Machines.{address_of};

use device_addr::NetAddr;
use ds_files::DataServer;
use ff_xdr::NoMemory;
use mirror_client::Client;
use node_config::Config;
use std::alloc::Global;

/// The port of the metadata server. That of a data server is so many ports behind it as is its number.
const MDS_PORT: u16 = 2_048;

/// The address of a data server by its number, of the metadata server by 0.
fn local(number: u32) -> NetAddr
    requires { number ≤ MAX_SERVERS }
    ensures { address_value result ≡ address_of number }
{
    NetAddr {
        host: [127, 0, 0, 1],
        port: MDS_PORT + number as u16,
    }
}

/// The addresses of so many data servers. Takes memory.
fn addresses(alloc: Global, count: u32) -> Result<Vec<NetAddr>, NoMemory>
    requires { count ≤ MAX_SERVERS }
    ensures values { IfOk result (λ servers. map address_value servers.items ≡ map address_of (range_with_len 1 count)) }
    ensures count { IfOk result (λ servers. length servers.items ≡ count) }
{
    let mut servers = Vec::new(alloc);
    for index in 0..count {
        servers.push(local(index + 1))?;
    }
    Ok(servers)
}

/// The configuration of a metadata server of so many data servers, of which each file is to have so many. Takes memory.
pub fn new_config(alloc: Global, count: u32, mirrors: u32) -> Result<Config, NoMemory>
    requires { count ≤ MAX_SERVERS }
    ensures servers { IfOk result (λ config. map address_value config.servers.items ≡ map address_of (range_with_len 1 count)) }
    ensures count { IfOk result (λ config. length config.servers.items ≡ count) }
    ensures mirrors { IfOk result (λ config. config.mirrors ≡ mirrors) }
{
    Ok(Config {
        servers: addresses(alloc, count)?,
        mds: local(0),
        mirrors,
        own: 1,
        turns: 1,
    })
}

/// So many data servers, by their numbers. Takes memory.
pub fn new_servers(alloc: Global, count: u32) -> Result<Vec<DataServer>, NoMemory>
    requires { count ≤ MAX_SERVERS }
    ensures { IfOk result (λ servers. servers.items ≡ map (λ n. new_server n 1) (range_with_len 1 count)) }
{
    let mut servers = Vec::new(alloc);
    for index in 0..count {
        servers.push(DataServer::new(alloc, index + 1, 1))?;
    }
    Ok(servers)
}

/// A new client with this verifier, whose first call has this number. Takes memory.
pub fn new_client(
    alloc: Global,
    number: u32,
    verifier: u64,
    first_xid: u32,
) -> Result<Client, NoMemory>
    ensures { IfOk result (λ client. client.client ≡ fresh_client number verifier first_xid) }
{
    Client::new(alloc, number, verifier.to_be_bytes(), first_xid)
}

/// So many clients, by their numbers. Takes memory.
pub fn new_clients(alloc: Global, count: u32) -> Result<Vec<Client>, NoMemory>
    requires { count ≤ MAX_NUMBER }
    ensures count { IfOk result (λ clients. length clients.items ≡ count) }
    ensures fresh { IfOk result (λ clients. map (λ c. c.client) clients.items ≡ map (λ n. fresh_client n 1 1) (range_with_len 1 count)) }
{
    let mut clients = Vec::new(alloc);
    for index in 0..count {
        clients.push(new_client(alloc, index + 1, 1, 1)?)?;
    }
    Ok(clients)
}
