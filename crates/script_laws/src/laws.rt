//! What holds of every script.

ghost use Rattle.script_laws.specs.ScriptLaws.{LawsOfScripts};

use bound_worlds::bound_worlds;
use node_histories::node_histories;
use world_fences::world_fences;
use world_grants::world_grants;
use world_holders::world_holders;
use world_layouts::world_layouts;
use world_moves::world_moves;
use world_reads::world_reads;
use world_room::world_room;

/// Of the journal of every script, whatever it delivers, loses, repeats, lets time out and restarts, up to its end, its
/// first line outside the grammar or the event that would pass a limit: after a fence no write under the fenced uid
/// changes a live mirror; each period is fenced before the next; behind a fence owners stay (RFC 8435, section 2.2). And
/// where the journal's records are of bytes, and the fileids of its mirrors have eight, as they do in the program: a READ
/// through the metadata server is answered with bytes that a mirror showed since it began, or as failed where each mirror
/// that was live then failed it or left (RFC 8881, section 18.22); and whenever a file is free all its live mirrors hold the
/// bytes of one flat file, which knows no mirrors, and nothing else (RFC 8435, sections 2.2 and 8). What the journal says of
/// each mirror's bytes, pending writes and owner is so at its data server. The same laws hold within a flow, whose
/// deliveries come one after the other.
pub fn script_laws()
    ensures { LawsOfScripts }
{
    world_moves();
    bound_worlds();
    node_histories();
    world_reads();
    world_layouts();
    world_room();
    world_fences();
    world_grants();
    world_holders();
}
