//! Machines, mirrors and what is seen of them.

use crate::answer::Answer;
use crate::fault::RowFault;
use crate::words::Words;
use cluster_model::{
    Cred, Mirror, MirrorId, Mirrors, NodeId, Reported, Shown, SwappedIn, Targets, Tick,
};

/// Whether a digit says that a place is reported.
fn is_reported(digit: u8) -> Option<bool> {
    match digit {
        b'0' => Some(false),
        b'1' => Some(true),
        _ => None,
    }
}

/// What four digits say of four places.
fn places_of(digits: &[u8]) -> Option<Reported> {
    let [first, second, third, fourth] = digits else {
        return None;
    };
    Some(Reported {
        places: [
            is_reported(*first)?,
            is_reported(*second)?,
            is_reported(*third)?,
            is_reported(*fourth)?,
        ],
    })
}

impl Words<'_> {
    /// `m`, or `d` or `c` and a number.
    pub fn node_of(&mut self, word: &str) -> NodeId {
        if let Some(digits) = word.strip_prefix("d") {
            return NodeId::Server(self.in32(digits));
        }
        if let Some(digits) = word.strip_prefix("c") {
            return NodeId::Client(self.in32(digits));
        }
        if word != "m" {
            self.note(RowFault::Outside);
        }
        NodeId::Mds
    }

    /// A machine.
    pub fn node(&mut self) -> NodeId {
        let word = self.word();
        self.node_of(word)
    }

    /// `d1.2`, a mirror by its two numbers: the data server, and the fileid there.
    pub fn mirror_id(&mut self) -> MirrorId {
        self.skip("d");
        MirrorId {
            server: self.number32_before("."),
            fileid: self.number64(),
        }
    }

    /// A mirror by its two numbers; `-` is none.
    pub fn mirror_id_option(&mut self) -> Option<MirrorId> {
        if self.is_none() {
            return None;
        }
        Some(self.mirror_id())
    }

    /// `1.5`, a moment of a data server: the boot, and the count in it.
    pub fn tick(&mut self) -> Tick {
        Tick {
            boot: self.number32_before("."),
            count: self.number32(),
        }
    }

    /// `1.5` before this mark.
    fn tick_before(&mut self, mark: &str) -> Tick {
        Tick {
            boot: self.number32_before("."),
            count: self.number32_before(mark),
        }
    }

    /// `d1.2` before this mark.
    fn mirror_id_before(&mut self, mark: &str) -> MirrorId {
        self.skip("d");
        MirrorId {
            server: self.number32_before("."),
            fileid: self.number64_before(mark),
        }
    }

    /// `d1.2@1.5`: a mirror, and the ctime last seen there.
    pub fn mirror(&mut self) -> Mirror {
        Mirror {
            id: self.mirror_id_before("@"),
            seen: self.tick(),
        }
    }

    /// Mirrors with commas between them; `-` is none.
    pub fn mirror_list(&mut self) -> Vec<Mirror> {
        let mut mirrors = Vec::new(self.alloc());
        if self.is_none() {
            return mirrors;
        }
        for text in self.word().split(',') {
            let mut item = Words::of(self.alloc(), text);
            if mirrors.push(item.mirror()).is_err() {
                self.note(RowFault::NoMemory);
            }
            self.behind(item);
        }
        mirrors
    }

    /// Mirrors on different servers, at most four, with commas between them; `-` is none.
    pub fn mirrors(&mut self) -> Mirrors {
        let list = self.mirror_list();
        match Mirrors::of(&list) {
            Some(mirrors) => mirrors,
            None => self.outside(Mirrors::none()),
        }
    }

    /// `d2.3@1.8:d2.2`: a fresh mirror, and the one in whose place it comes; `-` is none.
    fn swapped(&mut self) -> SwappedIn {
        let id = self.mirror_id_before("@");
        let seen = self.tick_before(":");
        SwappedIn {
            new: Mirror { id, seen },
            old: self.mirror_id_option(),
        }
    }

    /// Fresh mirrors with commas between them, at most four; `-` is none.
    pub fn targets(&mut self) -> Targets {
        let mut targets = Targets::none();
        if self.is_none() {
            return targets;
        }
        for text in self.word().split(',') {
            let mut item = Words::of(self.alloc(), text);
            if !targets.add(item.swapped()) {
                self.note(RowFault::Outside);
            }
            self.behind(item);
        }
        targets
    }

    /// Four digits, one for each place of the live list, `1` where it is reported.
    pub fn places(&mut self) -> Reported {
        match places_of(self.word().as_bytes()) {
            Some(reported) => reported,
            None => self.outside(Reported { places: [false; 4] }),
        }
    }

    /// `65536:1.7:2`, what a reply shows of a file: the owner, the ctime and the size.
    pub fn shown_file(&mut self) -> Shown {
        Shown {
            owner: Cred(self.number32_before(":")),
            seen: self.tick_before(":"),
            size: self.number64(),
        }
    }

    /// What a reply shows of a file; `-` is nothing.
    pub fn shown(&mut self) -> Option<Shown> {
        if self.is_none() {
            return None;
        }
        Some(self.shown_file())
    }
}

impl Answer {
    /// A letter, and the number of a machine.
    fn numbered(&mut self, letter: &str, number: u32) {
        self.word(letter);
        self.push_number(u64::from(number));
    }

    /// A machine.
    pub fn node(&mut self, node: NodeId) {
        match node {
            NodeId::Mds => self.word("m"),
            NodeId::Server(number) => self.numbered("d", number),
            NodeId::Client(number) => self.numbered("c", number),
        }
    }

    /// Appends a mirror's two numbers to the last word.
    pub fn push_mirror_id(&mut self, id: MirrorId) {
        self.push("d");
        self.push_number(u64::from(id.server));
        self.push(".");
        self.push_number(id.fileid);
    }

    /// Appends a moment to the last word.
    fn push_tick(&mut self, tick: Tick) {
        self.push_number(u64::from(tick.boot));
        self.push(".");
        self.push_number(u64::from(tick.count));
    }

    /// A mirror by its two numbers.
    pub fn mirror_id(&mut self, id: MirrorId) {
        self.word("");
        self.push_mirror_id(id);
    }

    /// A moment of a data server.
    pub fn tick(&mut self, tick: Tick) {
        self.word("");
        self.push_tick(tick);
    }

    /// Appends a mirror and the ctime last seen there to the last word.
    fn push_mirror(&mut self, mirror: Mirror) {
        self.push_mirror_id(mirror.id);
        self.push("@");
        self.push_tick(mirror.seen);
    }

    /// A mirror and the ctime last seen there.
    pub fn mirror(&mut self, mirror: Mirror) {
        self.word("");
        self.push_mirror(mirror);
    }

    /// Mirrors, with commas between them; `-` is none.
    pub fn mirrors(&mut self, mirrors: Mirrors) {
        self.word(if mirrors.len() == 0 { "-" } else { "" });
        for place in 0..mirrors.len() {
            if place > 0 {
                self.push(",");
            }
            if let Some(mirror) = mirrors.get(place) {
                self.push_mirror(mirror);
            }
        }
    }

    /// Appends a fresh mirror, and the one in whose place it comes, to the last word.
    fn push_swapped(&mut self, target: SwappedIn) {
        self.push_mirror(target.new);
        self.push(":");
        match target.old {
            None => self.push("-"),
            Some(old) => self.push_mirror_id(old),
        }
    }

    /// Fresh mirrors, with commas between them; `-` is none.
    pub fn targets(&mut self, targets: &Targets) {
        let targets = targets.as_slice();
        self.word(if targets.is_empty() { "-" } else { "" });
        for (place, target) in targets.iter().enumerate() {
            if place > 0 {
                self.push(",");
            }
            self.push_swapped(*target);
        }
    }

    /// A digit for each place of a live list.
    pub fn places(&mut self, reported: &Reported) {
        self.word("");
        for is_reported in reported.places {
            self.push_number(u64::from(is_reported));
        }
    }

    /// What a reply shows of a file.
    pub fn shown_file(&mut self, shown: Shown) {
        self.number32(shown.owner.0);
        self.push(":");
        self.push_tick(shown.seen);
        self.push(":");
        self.push_number(shown.size);
    }

    /// What a reply shows of a file; `-` is nothing.
    pub fn shown(&mut self, shown: Option<Shown>) {
        match shown {
            None => self.word("-"),
            Some(shown) => self.shown_file(shown),
        }
    }
}
