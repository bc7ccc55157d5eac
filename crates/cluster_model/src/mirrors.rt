//! Where the copies of a file are.

ghost use Rattle.std.specs.Prelude.{◌≡◌, true, List, [], ◌∷◌, ◌++◌, length, map, Some, None, slice_get, if◌then◌else◌};
ghost use Rattle.cluster_model.specs.Mirrors.{are_mirrors, can_add, has_server, mirrors_in};
ghost use Rattle.cluster_model.specs.Phases.{unreported, but_for, seen_at, seen_if, is_source, is_one_of, put_if, can_swap, in_place};

use crate::ids::{Mirror, MirrorId};
use crate::layout_state::Reported;
use crate::targets::SwappedIn;
use crate::tick::Tick;
use std::marker::Model;

/// The live mirrors of a file, in order: at most four, no two on one data server (RFC 8435, section 5.1
/// speaks of a list of mirrors).
#[derive(Clone, Copy, Debug, PartialEq, Eq)]
pub struct Mirrors {
    items: [Option<Mirror>; 4],
}

impl Model for Mirrors {
    ghost use Rattle.std.specs.Prelude.{List};
    ghost use Rattle.std.proofs.Common.{sym};
    ghost use Rattle.cluster_model.specs.declared.ids.Mirror.{Mirror};

    ghost Value = { List Mirror };

    ghost use Rattle.cluster_model.specs.Mirrors.{mirrors_in, places_of, AreMirrorsIn};

    ghost view = { λ m. mirrors_in m.items };

    ghost invariant = { λ m. AreMirrorsIn m.items };

    ghost inverse = { λ mirrors. record { items = places_of mirrors } };

    ghost inverse_ok = { λ m h i. record { items = sym h.places_are i } };
}

impl Mirrors {
    /// No mirror.
    pub fn none() -> Mirrors
        ensures { result ≡ [] }
    {
        Mirrors { items: [None; 4] }
    }

    /// These mirrors, where a file may have them.
    pub fn of(mirrors: &[Mirror]) -> Option<Mirrors>
        ensures { result ≡ (if are_mirrors mirrors.now then Some mirrors.now else None) }
    {
        let mut all = Mirrors::none();
        for mirror in mirrors {
            if !all.add(*mirror) {
                return None;
            }
        }
        Some(all)
    }

    /// How many there are.
    pub fn len(&self) -> usize
        ensures count { result ≡ length self.now }
        ensures mirrors { are_mirrors self.now ≡ true }
    {
        filled(&self.items)
    }

    /// The mirror at this place, from 0.
    pub fn get(&self, place: usize) -> Option<Mirror>
        ensures { result ≡ slice_get self.now place }
    {
        match self.items.get(place) {
            None => None,
            Some(item) => *item,
        }
    }

    /// The mirror joins at the end, where there is room for it and none is on its server.
    pub fn add(&mut self, mirror: Mirror) -> bool
        ensures added { result ≡ can_add self.old mirror }
        ensures list { self.new ≡ (if result then self.old ++ mirror ∷ [] else self.old) }
    {
        let len = filled(&self.items);
        if len == 4 || has_server(&self.items, mirror.id.server) {
            return false;
        }
        self.items[len] = Some(mirror);
        true
    }

    /// All but those whose places are reported.
    pub fn unreported(&self, reported: &Reported) -> Mirrors
        ensures { result ≡ unreported reported.now.places self.now }
    {
        let mut kept = Mirrors::none();
        for place in 0..self.len() {
            let Some(mirror) = self.get(place) else {
                return kept;
            };
            if reported.places[place] {
                continue;
            }
            kept.add(mirror);
        }
        kept
    }

    /// All but this one.
    pub fn but_for(&self, id: MirrorId) -> Mirrors
        ensures { result ≡ but_for id self.now }
    {
        let mut kept = Mirrors::none();
        for place in 0..self.len() {
            let Some(mirror) = self.get(place) else {
                return kept;
            };
            if mirror.id == id {
                continue;
            }
            kept.add(mirror);
        }
        kept
    }

    /// A fresh mirror comes into the place of one on its server that is not the first, or joins at the end where there is
    /// room for it and none is on its server.
    pub fn swap(&mut self, target: SwappedIn) -> bool
        ensures swapped { result ≡ can_swap target target.old self.old }
        ensures list { self.new ≡ (if result then in_place target target.old self.old else self.old) }
    {
        let Some(old) = target.old else {
            return self.add(target.new);
        };
        if target.new.id.server != old.server || self.is_first(old) || !self.has(old) {
            return false;
        }
        *self = self.with(old, target.new);
        true
    }

    /// The mirror is the first one.
    pub fn is_first(&self, id: MirrorId) -> bool
        ensures { result ≡ is_source id self.now }
    {
        match self.get(0) {
            Some(first) => first.id == id,
            None => false,
        }
    }

    /// The mirror is one of them.
    pub fn has(&self, id: MirrorId) -> bool
        ensures { result ≡ is_one_of id self.now }
    {
        has_mirror(&self.items, id)
    }

    /// The same, with a mirror of the same server in one's place.
    fn with(&self, old: MirrorId, new: Mirror) -> Mirrors
        requires { new.id.server ≡ old.server }
        ensures { result ≡ map (put_if old new) self.now }
    {
        let mut all = Mirrors::none();
        for place in 0..self.len() {
            let Some(mirror) = self.get(place) else {
                return all;
            };
            all.add(put_if(old, new, mirror));
        }
        all
    }

    /// The same, with this ctime as the one last seen at a mirror, where it is one of them.
    pub fn seen_at(&self, id: MirrorId, seen: Tick) -> Mirrors
        ensures { result ≡ seen_at id seen self.now }
    {
        let mut all = Mirrors::none();
        for place in 0..self.len() {
            let Some(mirror) = self.get(place) else {
                return all;
            };
            all.add(seen_if(mirror, id, seen));
        }
        all
    }
}

/// The mirror, with this ctime where it is the one that is named.
fn seen_if(mirror: Mirror, id: MirrorId, seen: Tick) -> Mirror
    ensures { result ≡ seen_if id seen mirror }
{
    if mirror.id == id {
        return Mirror {
            id: mirror.id,
            seen,
        };
    }
    mirror
}

/// The mirror, or the new one where it is the one that is named.
fn put_if(old: MirrorId, new: Mirror, mirror: Mirror) -> Mirror
    ensures { result ≡ put_if old new mirror }
{
    if mirror.id == old { new } else { mirror }
}

/// One of the mirrors is this one.
fn has_mirror(places: &[Option<Mirror>], id: MirrorId) -> bool
    ensures { result ≡ is_one_of id (mirrors_in places.now) }
{
    for place in places {
        if let Some(mirror) = place
            && mirror.id == id
        {
            return true;
        }
    }
    false
}

/// How many places are filled.
fn filled(places: &[Option<Mirror>]) -> usize
    ensures { result ≡ length (mirrors_in places.now) }
{
    let mut len = 0;
    for place in places {
        if place.is_some() {
            len += 1;
        }
    }
    len
}

/// One of the mirrors is on the server.
fn has_server(places: &[Option<Mirror>], server: u32) -> bool
    ensures { result ≡ has_server (mirrors_in places.now) server }
{
    for place in places {
        if let Some(mirror) = place
            && mirror.id.server == server
        {
            return true;
        }
    }
    false
}
