//! What a client has.

ghost use Rattle.std.specs.Prelude.{◌≡◌, IfOk};
ghost use Rattle.client_state.specs.ClientStates.{fresh_client, as_new};

use crate::asked::Asked;
use crate::layout::Layout;
use crate::name::ClientName;
use crate::request::UserRequest;
use crate::tie::Tie;
use client_mds_calls::{MdsAsk, OpenFile};
use cluster_model::UserAnswer;
use device_addr::DeviceTable;
use ff_xdr::NoMemory;
use std::alloc::Global;
use std::collections::VecDeque;
use std::marker::Model;

/// What a client has (RFC 8881, sections 2.4, 2.10 and 12; RFC 8435, sections 5 to 8).
#[derive(Drop)]
pub struct State {
    pub alloc: Global,
    /// Who it is.
    pub number: u32,
    /// Its name in calls.
    pub name: ClientName,
    /// What tells this start of it from the next.
    pub verifier: u64,
    /// The number of its next call; 0 where none is left.
    pub next_xid: u32,
    /// The requests that are not answered, the first of them at the head.
    pub queue: VecDeque<UserRequest>,
    /// The head asks again at the next tick.
    pub waits: bool,
    pub tie: Tie,
    /// The file that is open.
    pub file: Option<OpenFile>,
    pub layout: Option<Layout>,
    /// The devices whose addresses are known.
    pub devices: DeviceTable,
    /// The compound that is outstanding.
    pub asked: Option<Asked>,
    /// What goes out anew, since its reply was not kept.
    pub again: Option<MdsAsk>,
    /// The answers that the user has not taken.
    pub answers: VecDeque<UserAnswer>,
    /// How many writes were told since the last answer that says so.
    pub told: u32,
    /// It left the protocol.
    pub has_left: bool,
}

impl Model for State {
    ghost use Rattle.client_state.specs.ClientStates.{ClientValue};

    ghost Value = { ClientValue };

    ghost view = { λ s. record { number = s.number; name = s.name; verifier = s.verifier; next_xid = s.next_xid; queue = s.queue.items; waits = s.waits; tie = s.tie; file = s.file; layout = s.layout; devices = s.devices; asked = s.asked; again = s.again; answers = s.answers.items; told = s.told; has_left = s.has_left } };
}

impl State {
    /// A new client, whose first call has the number `first_xid`; 0 makes one that calls nobody.
    pub fn new(alloc: Global, number: u32, verifier: u64, first_xid: u32) -> Result<State, NoMemory>
        ensures { IfOk result (λ state. state ≡ fresh_client number verifier first_xid) }
    {
        let name = ClientName::of(alloc, number)?;
        Ok(State {
            alloc,
            number,
            name,
            verifier,
            next_xid: first_xid,
            queue: VecDeque::new(alloc),
            waits: false,
            tie: Tie::NoClient,
            file: None,
            layout: None,
            devices: DeviceTable::new(alloc),
            asked: None,
            again: None,
            answers: VecDeque::new(alloc),
            told: 0,
            has_left: false,
        })
    }

    /// It is as new: its calls are numbered on, and its requests and answers stay.
    pub fn become_new(&mut self)
        ensures { self.new ≡ as_new self.old }
    {
        self.waits = false;
        self.tie = Tie::NoClient;
        self.file = None;
        self.layout = None;
        self.devices = DeviceTable::new(self.alloc);
        self.asked = None;
        self.again = None;
        self.told = 0;
    }
}
