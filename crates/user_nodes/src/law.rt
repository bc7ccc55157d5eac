//! What put and get do, told by bytes and answers.

ghost use Rattle.std.specs.Prelude.{◌≡◌, ℕ, List, Option};
ghost use Rattle.node_config.specs.declared.config.Config.{Config};
ghost use Rattle.node_link.specs.declared.link.Opening.{Opening};
ghost use Rattle.ff_node.specs.declared.end.NodeEnd.TheVariants as ends;
ghost use Rattle.ff_node.specs.Nodes.{NodeEvent, text_over};
ghost use Rattle.ff_node.specs.Serve.{Beside};
ghost use Rattle.user_nodes.specs.Puts.{PutsFile, put_requests};
ghost use Rattle.user_nodes.specs.Gets.{GetValue, GetsFile, answered_bytes, get_rule};
ghost use Rattle.user_nodes.specs.Copies.{GotWell, PutWell, WritesOn, answers_over, bytes_written};

/// What a put asks its client to write are its bytes, one after the other, each piece where the one before it ended.
/// What a get writes to its sink over any arrivals are the bytes that its client answered, one after the other.
///
/// A put ends well only where none of its requests failed, and the file was opened, all was committed and the layout
/// was given back; a get only where none failed, the file's end was read, and the sink got all bytes that were answered.
pub fn copies_law()
    ensures writes { (name bytes : List ℕ) → bytes_written (put_requests name bytes) ≡ bytes }
    ensures places { (name bytes : List ℕ) → WritesOn 0 (put_requests name bytes) }
    ensures reads { (g : GetValue) (events : List NodeEvent) → text_over get_rule g events ≡ answered_bytes (answers_over g events) }
    ensures put { (config : Config) (name : List ℕ) (unread left : Option (List ℕ)) (opened opened' : Option Opening) (b b' : Beside) → PutsFile config name unread opened b ends.Done left opened' b' → PutWell config name unread b left b' }
    ensures got { (config : Config) (name : List ℕ) (opened opened' : Option Opening) (b b' : Beside) → GetsFile config name opened b ends.Done opened' b' → GotWell config name b b' }
{}
